// A board as an interface: what it means, and the questions that it answers.
ghost use Rattle.std.specs.Prelude.{◌≡◌, length, slice_index};
ghost use Rattle.circuit.specs.Circuit.{Circuit, Sound, Small, net, class, at, on};

// What is searched. Its answers follow from its meaning alone.
pub trait Board {
    ghost means: { Self → Circuit };

    // What each `impl` must prove: nets ascend over the board's parts, and neither parts nor nets are over 4,096.
    ghost sound: { (x : Self) → Sound (means x) };

    ghost small: { (x : Self) → Small (means x) };

    fn parts(&self) -> u16
        ensures { result ≡ length (means self.now).classes };

    fn nets(&self) -> u16
        ensures { result ≡ length (means self.now).nets };

    // A part's class, absent off the board.
    fn class(&self, v: u16) -> Option<u16>
        ensures { result ≡ at (means self.now).classes v };

    // How many parts a net has, none off the board.
    fn size(&self, f: u16) -> u16
        ensures { result ≡ length (net (means self.now) f) };

    // The k-th part of a net, absent off the board and from the net's size on.
    fn part(&self, f: u16, k: u16) -> Option<u16>
        ensures { result ≡ at (net (means self.now) f) k };

    fn on(&self, v: u16, f: u16) -> bool
        ensures { result ≡ on (means self.now) v f };
}

// A part's class, 0 off the board: for callers that hold a part of the board, and owe no proof that it is one.
pub fn class_of<B: Board>(board: &B, v: u16) -> u16
    ensures { result ≡ class (B.Board.means board.now) v }
{
    board.class(v).unwrap_or(0)
}

// The k-th part of a net, 0 where there is none, for callers that stay below the net's size.
pub fn part_of<B: Board>(board: &B, f: u16, k: u16) -> u16
    ensures { result ≡ slice_index (net (B.Board.means board.now) f) k }
{
    board.part(f, k).unwrap_or(0)
}

// A lent board is a board, so that layers can stand over one that the caller keeps.
impl<'a, B: Board> Board for &'a B {
    ghost means = { λ s. B.Board.means s.now };

    ghost sound = { λ s. B.Board.sound s.now };

    ghost small = { λ s. B.Board.small s.now };

    fn parts(&self) -> u16 {
        (**self).parts()
    }

    fn nets(&self) -> u16 {
        (**self).nets()
    }

    fn class(&self, v: u16) -> Option<u16> {
        (**self).class(v)
    }

    fn size(&self, f: u16) -> u16 {
        (**self).size(f)
    }

    fn part(&self, f: u16, k: u16) -> Option<u16> {
        (**self).part(f, k)
    }

    fn on(&self, v: u16, f: u16) -> bool {
        (**self).on(v, f)
    }
}
