// What is proved of patterns.
ghost use Rattle.pattern.specs.Drawn.{drawn};
ghost use Rattle.pattern.specs.Whole.{Whole};

use crate::pattern::Pattern;

// Every pattern that exists has 1 to 16 nets, none empty, and 1 to 64 parts, each on some net.
pub fn patterns_are_whole(pattern: &Pattern)
    ensures { Whole (drawn pattern.now) }
{}
