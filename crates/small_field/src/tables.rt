//! Operations on codes, by tables.
ghost use Rattle.std.specs.Prelude.{◌≡◌, ◌+◌, ◌*◌};
ghost use Rattle.small_field.specs.Candidates.{minus, plus, times};

/// A sum, a negative and a product on the codes below an order, by tables: what a and b give stands at place
/// a · order + b, and the negative of a at place a. What a table does not hold counts as 0.
#[derive(Clone, Copy)]
pub struct Tables<'a> {
    pub order: u16,
    pub sums: &'a [u16],
    pub negatives: &'a [u16],
    pub products: &'a [u16],
}

impl<'a> Tables<'a> {
    fn place(&self, a: u16, b: u16) -> usize
        ensures { result ≡ a * self.now.order + b }
    {
        a as usize * self.order as usize + b as usize
    }

    pub(crate) fn sum(&self, a: u16, b: u16) -> u16
        ensures { result ≡ plus self.now a b }
    {
        self.sums.get(self.place(a, b)).copied().unwrap_or(0)
    }

    pub(crate) fn negative(&self, a: u16) -> u16
        ensures { result ≡ minus self.now a }
    {
        self.negatives.get(a as usize).copied().unwrap_or(0)
    }

    pub(crate) fn product(&self, a: u16, b: u16) -> u16
        ensures { result ≡ times self.now a b }
    {
        self.products.get(self.place(a, b)).copied().unwrap_or(0)
    }
}
