// The lines of a listing of a FAT, put into a lent buffer one after the other.
#![tactic(auto)]

ghost use Rattle.std.specs.Prelude.{◌+◌, ◌*◌, ◌≤◌, length};
ghost use Rattle.consts.specs.Pretty.{prettify_of};
ghost use Rattle.texts.specs.Text.{Pushed};
ghost use Rattle.lines.specs.Lines.{counted, line_of, lines_of, counts_line, refused_line, listed};

use consts::Sector;
use texts::Out;

// Puts `word` and then `n` in decimal.
#[tactic(auto, using(texts::proofs::Decimal::decimal_of_usize))]
fn put_counted(out: &mut Out, word: &[u8], n: usize)
    requires { out.old.len + length word.now + 20 ≤ length out.old.buf.now }
    ensures put { Pushed out.old (counted word.now n) out.new }
    ensures short { out.new.len ≤ out.old.len + length word.now + 20 }
{
    out.push(word);
    out.push_decimal(n);
}

// Puts the line of an item.
fn put_item(out: &mut Out, item: Sector)
    requires { out.old.len + 27 ≤ length out.old.buf.now }
    ensures put { Pushed out.old (line_of item) out.new }
    ensures short { out.new.len ≤ out.old.len + 27 }
{
    out.push_item(item);
    out.push(b"\n");
}

// Puts the lines of the items of a FAT: each stands for one entry at least.
fn put_items(out: &mut Out, fat: &[u32])
    requires { out.old.len + 27 * length fat.now ≤ length out.old.buf.now }
    ensures { Pushed out.old (lines_of (prettify_of fat.now)) out.new }
{
    for item in consts::short_list(fat) {
        put_item(out, item);
    }
}

// Puts the line of the counts.
fn put_counts(out: &mut Out, sectors: usize, free: usize)
    requires { out.old.len + 55 ≤ length out.old.buf.now }
    ensures put { Pushed out.old (counts_line sectors free) out.new }
    ensures short { out.new.len ≤ out.old.len + 55 }
{
    put_counted(out, b"sectors ", sectors);
    put_counted(out, b" free ", free);
    out.push(b"\n");
}

// Puts the listing of an accepted image.
pub fn put_listed(out: &mut Out, sectors: usize, free: usize, fat: &[u32])
    requires { out.old.len + 55 + 27 * length fat.now ≤ length out.old.buf.now }
    ensures { Pushed out.old (listed sectors free fat.now) out.new }
{
    put_counts(out, sectors, free);
    put_items(out, fat);
}

// Puts the line of a refusal.
pub fn put_refused(out: &mut Out, no: u32)
    requires { out.old.len + 29 ≤ length out.old.buf.now }
    ensures { Pushed out.old (refused_line no) out.new }
{
    put_counted(out, b"refused ", no as usize);
    out.push(b"\n");
}
