// What a pile stands on.
ghost use Rattle.std.specs.Prelude.{◌≡◌, IfOk};
ghost use Rattle.store.specs.Making.{Makes};
ghost use Rattle.pile.specs.declared.base.Base.{Base as AnyBase};
ghost use Rattle.pile.specs.declared.base.Base.TheVariants.{Table as TableBase, Journal as JournalBase};
ghost use Rattle.pile.specs.Base.{base_disk, base_sound, IsTable, IsJournal, table_stands, journal_stands};

use journal::Journal;
use std::alloc::Global;
use store::Store;
use store::kind::{Kind, Refusal};
use store::making::{Made, MakeError};
use table::Table;

// A store in memory.
#[derive(Drop)]
pub enum Base {
    Table(Table),
    Journal(Journal),
}

impl From<Table> for Base {
    ghost from_gives = { λ table base. base ≡ TableBase table };

    fn from(table: Table) -> Base {
        Base::Table(table)
    }
}

impl From<Journal> for Base {
    ghost from_gives = { λ journal base. base ≡ JournalBase journal };

    fn from(journal: Journal) -> Base {
        Base::Journal(journal)
    }
}

// A store that is made here and can be a base, which shows what the store does.
pub trait Basis: Made + Into<Base> {
    // A base is a store of this type.
    ghost Is: { AnyBase → Type 0 };

    ghost stands: { (s : Self) (b : AnyBase) → Self.converts s b → (base_disk b ≡ Self.disk s) × Is b };
}

impl Basis for Table {
    ghost Is = { IsTable };

    ghost stands = { table_stands };
}

impl Basis for Journal {
    ghost Is = { IsJournal };

    ghost stands = { journal_stands };
}

impl Base {
    // A store of this type for so many rows, as its `new` makes it.
    pub fn new<S: Basis>(heap: Global, rows: u32) -> Result<Base, MakeError>
        ensures answer { Makes base_disk rows result }
        ensures base { IfOk result S.Is }
    {
        Ok(S::new(heap, rows)?.into())
    }
}

// A call on the store that a base is, arm by arm: a function may not make a `&dyn Store` and hand it out.
macro_rules! of_base {
    ($base:expr, $store:ident => $call:expr) => {
        match $base {
            Base::Table($store) => $call,
            Base::Journal($store) => $call,
        }
    };
}

impl Store for Base {
    ghost disk = { base_disk };

    ghost Frame = { Unit {0} };

    ghost rest = { λ _. tt };

    ghost sound = { base_sound };

    fn load(&self, kind: Kind, number: u32, buffer: &mut [u8]) -> Result<usize, Refusal> {
        of_base!(self, store => store.load(kind, number, buffer))
    }

    fn put(&mut self, kind: Kind, number: u32, row: &[u8]) -> Result<(), Refusal> {
        of_base!(self, store => store.put(kind, number, row))
    }

    fn drop_row(&mut self, kind: Kind, number: u32) -> Result<(), Refusal> {
        of_base!(self, store => store.drop_row(kind, number))
    }

    fn limit(&self, kind: Kind) -> u32 {
        of_base!(self, store => store.limit(kind))
    }

    fn free(&self) -> u32 {
        of_base!(self, store => store.free())
    }

    fn power(&mut self, writes: u32) {
        of_base!(self, store => store.power(writes))
    }
}
