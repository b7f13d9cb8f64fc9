//! A memory that keeps every cell in two forms and compares them, so that a damaged cell shows.
ghost use Rattle.std.specs.Prelude.{◌≡◌, ◌≤◌, map, min, length, replicate, IfOk};
ghost use Rattle.laboratory.specs.Forms.{FormsShow, both_forms, shown, shown_bounded};
ghost use Rattle.memory.specs.Meaning.{max_cells, max_top};

use memory::{MAX_CELLS, MAX_TOP, Memory};
use std::alloc::{AllocError, Global};

/// A number in two forms: as it is, and turned, which is the top less the number.
#[derive(Clone, Copy)]
struct Twice {
    plain: u16,
    turned: u16,
}

impl Twice {
    /// Both forms of a number.
    fn new(v: u16) -> Twice
        ensures { result ≡ both_forms v }
    {
        Twice {
            plain: v,
            turned: MAX_TOP - v,
        }
    }

    /// The number, where the two forms agree. Where they do not, the top, which is a code of no field.
    fn value(&self) -> u16
        ensures { result ≡ shown self.now }
    {
        if self.turned == MAX_TOP - self.plain {
            self.plain
        } else {
            MAX_TOP
        }
    }
}

/// A memory of sixteen-bit cells, each in two forms.
#[derive(Drop)]
pub struct Mirrored {
    cells: Vec<Twice>,
    ghost few: { length cells.items ≤ max_cells },
}

impl Mirrored {
    /// A memory of so many cells, or of `MAX_CELLS` if more are asked for, which all hold 0.
    pub fn new(heap: Global, len: usize) -> Result<Mirrored, AllocError>
        ensures { IfOk result (λ m. m.cells.items ≡ replicate (min max_cells len) (both_forms 0)) }
    {
        let cells = vec![in heap; Twice::new(0); len.min(MAX_CELLS)]?;
        Ok(Mirrored { cells })
    }
}

impl Memory for Mirrored {
    ghost cells = { λ m. map shown m.cells.items };

    ghost top = { λ _. max_top };

    fn len(&self) -> usize {
        self.cells.len()
    }

    fn top_value(&self) -> u16 {
        MAX_TOP
    }

    fn get(&self, j: usize) -> Option<u16> {
        self.cells.get(j).map(|cell| cell.value())
    }

    fn set(&mut self, j: usize, v: u16) -> bool {
        let Some(cell) = self.cells.get_mut(j) else {
            return false;
        };
        *cell = Twice::new(v);
        true
    }

    ghost bounded = { λ m. shown_bounded m.cells.items m.few };
}

/// A sound cell shows its number, and a damaged one the top. The function does nothing: it asks for the theorem.
pub fn damage_shows()
    ensures { FormsShow }
{}

#[test]
fn a_damaged_form_shows(rt: HostRuntime) -> Result<(), std::test::Fail> {
    let mut memory = Mirrored::new(rt.alloc(), 2)?;
    assert_eq!(rt; memory.set(1, 7), true);
    assert_eq!(rt; memory.get(1), Some(7));
    if let Some(cell) = memory.cells.get_mut(1) {
        cell.turned = 0;
    }
    assert_eq!(rt; memory.get(1), Some(MAX_TOP));
    assert_eq!(rt; memory.get(0), Some(0));
    assert_eq!(rt; memory.set(1, 8), true);
    assert_eq!(rt; memory.get(1), Some(8));
    Ok(())
}
