ghost use Rattle.std.specs.Prelude.{◌≡◌, ◌<◌, ◌≤◌, length};
ghost use Rattle.circuit.specs.Circuit.{net};
ghost use Rattle.tables.specs.Drawn.{drawn_in};
ghost use Rattle.pattern.specs.Drawn.{drawn};
ghost use Rattle.pattern.specs.Kept.{drawn_sound, drawn_small};

use super::Pattern;
use circuit::Board;
use tables::{NetList, Tables};

impl Pattern {
    // How many nets the pattern has: 1 to 16.
    #[tactic(auto, using(tables::specs::Cuts::cuts_length))]
    pub fn net_count(&self) -> u16
        ensures value { result ≡ length (drawn self.now).nets }
        ensures some { 1 ≤ result }
        ensures few { result ≤ 16 }
    {
        self.ends.len() as u16
    }

    fn tables(&self) -> Tables<'_>
        ensures { drawn_in result ≡ drawn self.now }
    {
        Tables {
            classes: self.classes.as_slice(),
            ends: self.ends.as_slice(),
            joins: self.joins.as_slice(),
        }
    }

    fn list(&self, f: u16) -> NetList<'_>
        ensures list { result.parts.now ≡ net (drawn self.now) f }
        ensures few { length result.parts.now < 65536 }
    {
        self.tables().net(f)
    }
}

impl Board for Pattern {
    ghost means = { drawn };

    ghost sound = { λ s. drawn_sound s };

    ghost small = { λ s. drawn_small s };

    fn parts(&self) -> u16 {
        self.classes.len() as u16
    }

    fn nets(&self) -> u16 {
        self.net_count()
    }

    fn class(&self, v: u16) -> Option<u16> {
        self.tables().class(v)
    }

    fn size(&self, f: u16) -> u16 {
        self.list(f).size() as u16
    }

    fn part(&self, f: u16, k: u16) -> Option<u16> {
        self.list(f).part(k)
    }

    fn on(&self, v: u16, f: u16) -> bool {
        self.list(f).holds(v)
    }
}
