// Whether the rest of a table is zero. The loop has no early way out: a right table is looked at to its end, on vectors.
ghost use Rattle.std.specs.Prelude.{◌≡◌, drop};
ghost use Rattle.std.specs.List.{list_all};

// Whether every number from a place on is zero, the default of its type.
pub fn zeros_from<T: PartialEq + Default + Drop>(xs: &[T], from: usize) -> bool
    ensures { (zero : T) × T.is_default zero × (result ≡ list_all (λ x. T.eq x zero) (drop from xs.now)) }
{
    let zero = T::default();
    xs[from.min(xs.len())..]
        .iter()
        .fold(true, |all, x| all & (*x == zero))
}
