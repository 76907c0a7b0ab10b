// The FAT set and grown: each change goes to the lent tables and to the bytes of the image at once.
ghost use Rattle.std.specs.Prelude.{◌≡◌, ◌+◌, ◌-◌, ◌*◌, ◌/◌, ◌≤◌, ◌<◌, length, get_or, set};
ghost use Rattle.lists.specs.Lists.{splice};
ghost use Rattle.sectors.specs.Sectors.{start_of, per_sector};
ghost use Rattle.fat.specs.Lists.{most, room_of};
ghost use Rattle.disk.specs.Disk.{entry_place, store, set_fat as fat_set, link_place, append_difat, hold_place, list_place, append_fat, ready, new_sector as sector_added, reused, needs_difat as needs_difat_of};
ghost use Rattle.disk.specs.Fits.{FitsOne, FitsPlace, FitsFat, FitsNew};
ghost use Rattle.disk.specs.Held.{disk_in, DiskBecomes};
ghost use Rattle.words.specs.Words.{digits};

use fat::listed::ceil;
use fields::entries::put_place;
use fields::{DIFAT, DIFATS, FATS, put_number};
use lent::TablesMut;
use sectors::init::{SectorInit, init_at, put_at};

// What is in hand of an open image: its bytes and its tables as lent, the sectors' length, how many sectors there are, and how many
// of them are FREE.
#[derive(Drop)]
pub struct Hand<'a, 'b> {
    pub image: &'a mut [u8],
    pub tables: &'a mut TablesMut<'b>,
    pub len: usize,
    pub sectors: usize,
    pub free: usize,
}

// Whether place p of the DIFAT is in a DIFAT sector, and none of those that p places need has it.
pub fn needs_difat(s: usize, p: usize) -> bool
    requires { (512 ≤ s) × (s ≤ 65536) × (p ≤ most) }
    ensures { result ≡ needs_difat_of s p }
{
    let each = s / 4 - 1;
    if p < 109 {
        return false;
    }
    ceil(p - 109, each) <= (p - 109) / each
}

// Sets entry i of the FAT, in the table and in the image. The list of the FAT's sectors is only read.
pub fn set_fat(image: &mut [u8], s: usize, fat: &mut [u32], fats: &[u32], i: usize, v: u32)
    requires s_value { (s ≡ 4 * per_sector s) × (1 ≤ per_sector s) }
    requires i_in_bounds { (i < length fat.old) × (i / per_sector s < length fats.now) }
    requires s_in_bounds { start_of s (get_or fats.now (i / per_sector s) 0) + s ≤ length image.old }
    ensures { (image.new ≡ splice image.old (entry_place s fats.now i) (digits 4 v)) × (fat.new ≡ set fat.old i v) }
{
    let each = s / 4;
    let id = fats[i / each] as usize;
    put_at(image, s, id, i % each, v);
    fat[i] = v;
}

impl Hand<'_, '_> {
    // Sets entry i of the FAT, in the table and in the image.
    pub fn set_fat(&mut self, i: usize, v: u32)
        requires s_value { (self.old.len ≡ 4 * per_sector self.old.len) × (1 ≤ per_sector self.old.len) }
        requires i_in_bounds { (i < length self.old.tables.now.fat.now) × (i / per_sector self.old.len < length self.old.tables.now.fats.now) }
        requires s_in_bounds { start_of self.old.len (get_or self.old.tables.now.fats.now (i / per_sector self.old.len) 0) + self.old.len ≤ length self.old.image.now }
        ensures { DiskBecomes self.old self.new (fat_set self.old.len (disk_in self.old) i v) }
    {
        let tables = &mut *self.tables;
        let fat = &mut *tables.fat;
        let fats = &mut *tables.fats;
        set_fat(self.image, self.len, fat, fats, i, v);
    }

    // Links DIFAT sector id from the last of j, or from the header where there is none.
    fn link_difat(&mut self, j: usize, id: u32)
        requires le_s { (512 ≤ self.old.len) × (self.old.len ≡ 4 * per_sector self.old.len) × (self.old.len ≤ length self.old.image.now) }
        requires j_in_bounds { (j ≤ length self.old.tables.now.difats.now) × (0 < j → start_of self.old.len (get_or self.old.tables.now.difats.now (j - 1) 0) + self.old.len ≤ length self.old.image.now) }
        ensures { DiskBecomes self.old self.new (store (disk_in self.old) (link_place self.old.len self.old.tables.now.difats.now j) (digits 4 id)) }
    {
        if j == 0 {
            put_number(self.image, DIFAT, id);
            return;
        }
        let last = self.tables.difats[j - 1] as usize;
        put_at(self.image, self.len, last, self.len / 4 - 1, id);
    }

    // Makes the next sector the j-th DIFAT sector: new, marked, linked, listed, and counted in the header.
    fn append_difat_sector(&mut self, j: usize)
        requires fits_one { FitsOne self.old.len (room_of self.old.len (length self.old.image.now)) j (disk_in self.old) }
        requires j_in_bounds { j < length self.old.tables.now.difats.now }
        ensures { DiskBecomes self.old self.new (append_difat self.old.len (disk_in self.old) j) }
    {
        let id = self.sectors as u32;
        init_at(self.image, self.len, self.sectors, SectorInit::Difat);
        self.set_fat(self.sectors, consts::DIFAT_SECTOR);
        self.link_difat(j, id);
        self.tables.difats[j] = id;
        put_number(self.image, DIFATS, (j + 1) as u32);
        self.sectors += 1;
    }

    // Makes the next sector a DIFAT sector where none has place p of the DIFAT, 109 or later.
    fn hold_place(&mut self, p: usize)
        requires { (109 ≤ p) × FitsPlace self.old.len (room_of self.old.len (length self.old.image.now)) p (disk_in self.old) }
        ensures { DiskBecomes self.old self.new (hold_place self.old.len (disk_in self.old) p) }
    {
        if needs_difat(self.len, p) {
            self.append_difat_sector((p - 109) / (self.len / 4 - 1));
        }
    }

    // Stores FAT sector id in place p of the DIFAT: in the header, or in a DIFAT sector, which is added where none has the place.
    fn list_place(&mut self, p: usize, id: u32)
        requires { FitsPlace self.old.len (room_of self.old.len (length self.old.image.now)) p (disk_in self.old) }
        ensures { DiskBecomes self.old self.new (list_place self.old.len (disk_in self.old) p id) }
    {
        if p < 109 {
            put_place(self.image, p, id);
            return;
        }
        self.hold_place(p);
        let each = self.len / 4 - 1;
        let sector = self.tables.difats[(p - 109) / each] as usize;
        put_at(self.image, self.len, sector, (p - 109) % each, id);
    }

    // Makes the next sector a FAT sector: new, listed, marked, in its place of the DIFAT, and counted in the header.
    fn append_fat_sector(&mut self)
        requires { FitsFat self.old.len (room_of self.old.len (length self.old.image.now)) (disk_in self.old) }
        ensures { DiskBecomes self.old self.new (append_fat self.old.len (disk_in self.old)) }
    {
        let k = self.sectors / (self.len / 4);
        let id = self.sectors as u32;
        init_at(self.image, self.len, self.sectors, SectorInit::Fat);
        self.tables.fats[k] = id;
        self.set_fat(self.sectors, consts::FAT_SECTOR);
        self.sectors += 1;
        self.list_place(k, id);
        put_number(self.image, FATS, (k + 1) as u32);
    }

    // Makes a FAT sector where the FAT is full: the next sector is for data then.
    fn make_ready(&mut self)
        requires { FitsNew self.old.len (room_of self.old.len (length self.old.image.now)) (disk_in self.old) }
        ensures { DiskBecomes self.old self.new (ready self.old.len (disk_in self.old)) }
    {
        if self.sectors % (self.len / 4) == 0 {
            self.append_fat_sector();
        }
    }

    // Makes the next sector a chain's last one, zero, after a FAT sector where the FAT is full, and returns its id.
    pub fn new_sector(&mut self) -> u32
        requires { FitsNew self.old.len (room_of self.old.len (length self.old.image.now)) (disk_in self.old) }
        ensures id { result ≡ (ready self.old.len (disk_in self.old)).sectors }
        ensures disk { DiskBecomes self.old self.new (sector_added self.old.len (disk_in self.old)) }
    {
        self.make_ready();
        let id = self.sectors;
        self.set_fat(id, consts::END_OF_CHAIN);
        init_at(self.image, self.len, id, SectorInit::Zero);
        self.sectors = id + 1;
        id as u32
    }

    // Takes FREE sector id: it becomes a chain's last one, zero.
    pub fn reuse(&mut self, id: u32)
        requires s_value { (self.old.len ≡ 4 * per_sector self.old.len) × (1 ≤ per_sector self.old.len) }
        requires id_in_bounds { (id < length self.old.tables.now.fat.now) × (id / per_sector self.old.len < length self.old.tables.now.fats.now) }
        requires s_in_bounds { (start_of self.old.len (get_or self.old.tables.now.fats.now (id / per_sector self.old.len) 0) + self.old.len ≤ length self.old.image.now) × (start_of self.old.len id + self.old.len ≤ length self.old.image.now) }
        ensures { DiskBecomes self.old self.new (reused self.old.len (disk_in self.old) id) }
    {
        let i = id as usize;
        self.set_fat(i, consts::END_OF_CHAIN);
        init_at(self.image, self.len, i, SectorInit::Zero);
    }
}
