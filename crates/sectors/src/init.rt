// Stores in sectors of an image, each lent as a slice of its own: an entry, and what a new sector holds (document 01, "Bytes of a compound file").
ghost use Rattle.std.specs.Prelude.{◌≡◌, ◌+◌, ◌*◌, ◌≤◌, length};
ghost use Rattle.lists.specs.Lists.{splice};
ghost use Rattle.words.specs.Words.{digits};
ghost use Rattle.sectors.specs.Sectors.{start_of, per_sector};
ghost use Rattle.sectors.specs.Init.{init_bytes};
ghost use Rattle.sectors.specs.declared.init.SectorInit.TheVariants.{Difat};

use crate::span;

// What a new sector is for.
#[derive(Clone, Copy)]
pub enum SectorInit {
    // Data: zeros.
    Zero,
    // A sector of the FAT: every entry FREE.
    Fat,
    // A sector of the DIFAT: every entry FREE, and END as the last, which is the next sector.
    Difat,
}

// Stores entry j of a sector.
fn put_entry(sector: &mut [u8], j: usize, v: u32)
    requires { 4 * j + 4 ≤ length sector.old }
    ensures { sector.new ≡ splice sector.old (4 * j) (digits 4 v) }
{
    words::put::<4>(sector, 4 * j, v);
}

// Stores entry j of sector id of an image.
pub fn put_at(image: &mut [u8], s: usize, id: usize, j: usize, v: u32)
    requires s_in_bounds { start_of s id + s ≤ length image.old }
    requires j_bound { 4 * j + 4 ≤ s }
    ensures { image.new ≡ splice image.old (start_of s id + 4 * j) (digits 4 v) }
{
    put_entry(&mut image[span(s, id)], j, v);
}

// Makes a sector a new DIFAT sector.
fn init_difat(sector: &mut [u8])
    requires { (length sector.old ≡ 4 * per_sector (length sector.old)) × (1 ≤ per_sector (length sector.old)) }
    ensures { sector.new ≡ init_bytes (length sector.old) Difat }
{
    sector.fill(255);
    let last = sector.len() / 4 - 1;
    put_entry(sector, last, consts::END_OF_CHAIN);
}

// Makes a sector a new one.
fn init_sector(sector: &mut [u8], init: SectorInit)
    requires { (length sector.old ≡ 4 * per_sector (length sector.old)) × (1 ≤ per_sector (length sector.old)) }
    ensures { sector.new ≡ init_bytes (length sector.old) init }
{
    match init {
        SectorInit::Zero => sector.fill(0),
        SectorInit::Fat => sector.fill(255),
        SectorInit::Difat => init_difat(sector),
    }
}

// Makes sector id of an image a new one.
pub fn init_at(image: &mut [u8], s: usize, id: usize, init: SectorInit)
    requires s_in_bounds { start_of s id + s ≤ length image.old }
    requires s_value { (s ≡ 4 * per_sector s) × (1 ≤ per_sector s) }
    ensures { image.new ≡ splice image.old (start_of s id) (init_bytes s init) }
{
    init_sector(&mut image[span(s, id)], init);
}
