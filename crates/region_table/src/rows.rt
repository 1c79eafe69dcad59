// A list of numbers for each strand, with room to grow.
ghost use Rattle.std.specs.Prelude.{◌≡◌, ℕ, suc, ◌<◌, ◌≤◌, ◌^◌, ◌++◌, ◌∷◌, [], length, map, slice_index, slice_index_or, OnOk, OnErr};
ghost use Rattle.region_table.specs.FingerLists.{rows_after, shifted};
ghost use Rattle.region_table.specs.Rows.{HaveRoom};

use crate::entries::put_two;
use crate::entry::{Entry, shift_all};
use obd_base::NoMemory;
use std::alloc::Global;
use std::marker::Model;

// A list of numbers for each strand. Each has room for two numbers more for each of so many fingers.
pub(crate) struct Rows {
    rows: Vec<Vec<u32>>,
    room: u32,
}

// By hand, so that a caller's proof holds one call and not the drop of each field.
impl Drop for Rows {
    fn drop(self) {
        let Rows {
            rows: _rows,
            room: _room,
        } = self;
    }
}

impl Model for Rows {
    ghost use Rattle.std.specs.Prelude.{map};
    ghost use Rattle.region_table.specs.Rows.{HaveRoom, Rows as Shown};

    ghost Value = { Shown };

    ghost view = { λ r. record { lists = map (λ row. row.items) r.rows.items; room = r.room } };

    ghost invariant = { λ r. HaveRoom r.rows.items r.room };
}

// Takes room in each list for so many fingers.
fn reserve_rows(rows: &mut [Vec<u32>], fingers: u32) -> Result<(), NoMemory>
    ensures size { length rows.new ≡ length rows.old }
    ensures lists { map (λ row. row.items) rows.new ≡ map (λ row. row.items) rows.old }
    ensures kept { (room : ℕ) → HaveRoom rows.old room → HaveRoom rows.new room }
    ensures ok { OnOk result (HaveRoom rows.new fingers) }
{
    for index in 0..rows.len() {
        rows[index].try_reserve(2 * fingers as usize)?;
    }
    Ok(())
}

// Sets the numbers of all lists to where they stand after a finger.
fn shift_rows(rows: &mut [Vec<u32>], entry: Entry)
    requires { (i p : ℕ) → slice_index (slice_index_or (map (λ row. row.items) rows.old) i []) p < 2 ^ 30 }
    ensures lists { map (λ row. row.items) rows.new ≡ map (map (shifted entry.entered entry.beyond)) (map (λ row. row.items) rows.old) }
    ensures room { (room : ℕ) → HaveRoom rows.old room → HaveRoom rows.new room }
{
    for index in 0..rows.len() {
        shift_all(&mut rows[index], entry);
    }
}

impl Rows {
    // No lists.
    pub(crate) fn new(alloc: Global) -> Rows
        ensures { result ≡ record { lists = []; room = 0 } }
    {
        Rows {
            rows: Vec::new(alloc),
            room: 0,
        }
    }

    // How many lists there are.
    pub(crate) fn len(&self) -> usize
        ensures { result ≡ length self.now.lists }
    {
        self.rows.len()
    }

    // One of the lists.
    pub(crate) fn row(&self, index: usize) -> &[u32]
        requires { index < length self.now.lists }
        ensures { result.now ≡ slice_index_or self.now.lists index [] }
    {
        self.rows[index].as_slice()
    }

    // Puts a list last. None has room for a finger before.
    pub(crate) fn push(&mut self, row: Vec<u32>) -> Result<(), NoMemory>
        requires { self.old.room ≡ 0 }
        ensures room { self.new.room ≡ 0 }
        ensures ok { OnOk result (self.new.lists ≡ self.old.lists ++ row.items ∷ []) }
        ensures err { OnErr result (self.new.lists ≡ self.old.lists) }
    {
        self.rows.push(row)?;
        Ok(())
    }

    // Takes room for so many fingers.
    pub(crate) fn reserve(&mut self, fingers: u32) -> Result<(), NoMemory>
        ensures lists { self.new.lists ≡ self.old.lists }
        ensures more { self.old.room ≤ self.new.room }
        ensures ok { OnOk result (fingers ≤ self.new.room) }
    {
        reserve_rows(&mut self.rows, fingers)?;
        if self.room < fingers {
            self.room = fingers;
        }
        Ok(())
    }

    // Where chords begin after a finger: two more begin behind the pushed chord of a strand. It uses up the room for a
    // finger. Linear in the chords.
    pub(crate) fn write(&mut self, entry: Entry, strand: usize, chord: u32, first: u32, second: u32)
        requires room { 1 ≤ self.old.room }
        requires strand { strand < length self.old.lists }
        requires chord { chord < length (slice_index_or self.old.lists strand []) }
        requires small { (i p : ℕ) → slice_index (slice_index_or self.old.lists i []) p < 2 ^ 30 }
        ensures lists { self.new.lists ≡ rows_after entry.entered entry.beyond strand chord first second self.old.lists }
        ensures room { suc self.new.room ≡ self.old.room }
    {
        shift_rows(&mut self.rows, entry);
        put_two(&mut self.rows[strand], chord as usize + 1, first, second);
        self.room -= 1;
    }
}
