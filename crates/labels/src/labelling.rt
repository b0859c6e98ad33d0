// A class for each part, from the labels of a pattern and a board.
ghost use Rattle.std.specs.Prelude.{◌≡◌, ◌+◌, ◌^◌, ◌<◌, ◌≤◌, true, length, take, not, position, Ok, is_ok, nat_lt, if◌then◌else◌};
ghost use Rattle.labels.specs.Alike.{Tells, Wrote};
ghost use Rattle.labels.specs.Classes.{first, unfit, class, classed};
ghost use Rattle.labels.specs.Refusals.{refused, verdict};
ghost use Rattle.circuit.specs.declared.refusal.Reason.TheVariants.{UnfitLabel};

use crate::kinds::Label;
use circuit::{Reason, Refusal};

const PATTERN_LABELS: usize = 64;

const BOARD_LABELS: usize = 4096;

// The place of the first label alike to `own`.
fn first_alike<L: Label>(labels: &[L], own: &L) -> Option<usize>
    ensures { result ≡ position (λ x. L.same x own.now) labels.now }
{
    labels.iter().position(|x| x.alike(own))
}

// The place of the first label that is not fit.
fn first_unfit<L: Label>(labels: &[L]) -> Option<usize>
    ensures { result ≡ position (λ x. not (L.proper x)) labels.now }
{
    labels.iter().position(|x| !x.fit())
}

// Refuses the first label that is not fit, at its place counted on from `start`.
#[tactic(auto, using(crate::proofs::Firsts::unfit_placed))]
fn check_fit<L: Label>(labels: &[L], start: usize) -> Result<(), Refusal>
    requires { start + length labels.now < 2 ^ 64 }
    ensures { result ≡ (if nat_lt (unfit L.proper labels.now) (length labels.now) then refused UnfitLabel (start + unfit L.proper labels.now) else Ok tt) }
{
    // A match: what is found is the error, and no method of Option turns Some into Err.
    match first_unfit(labels) {
        Some(place) => Err(Refusal {
            reason: Reason::UnfitLabel,
            place: start + place,
        }),
        None => Ok(()),
    }
}

// The labels of a pattern and of a board, few enough for every class to fit 16 bits.
#[derive(Drop)]
struct Sides<'a, L> {
    pattern: &'a [L],
    board: &'a [L],
    ghost few_pattern: { length pattern.now ≤ 64 },
    ghost few_board: { length board.now ≤ 4096 },
}

impl<'a, L: Label> Sides<'a, L> {
    // Pattern labels come first; a board label's place is counted past every pattern label.
    #[tactic(auto, using(crate::proofs::Firsts::first_placed))]
    fn class_of(&self, own: &L) -> u16
        ensures { result ≡ class L.same self.now.pattern.now self.now.board.now own.now }
    {
        if let Some(place) = first_alike(self.pattern, own) {
            return place as u16;
        }
        // The number after the last is what the class of a label on neither side is defined by; no label of a side comes to it.
        let place = first_alike(self.board, own).unwrap_or(self.board.len());
        (PATTERN_LABELS + place) as u16
    }

    fn write(&self, labels: &[L], classes: &mut [u16])
        requires { length labels.now ≤ length classes.old }
        ensures { classes.new ≡ classed L.same self.now.pattern.now self.now.board.now labels.now classes.old }
    {
        // By index: what is written through `classes.iter_mut().zip(labels)` the prover does not know after the loop.
        for (i, label) in labels.iter().enumerate() {
            classes[i] = self.class_of(label);
        }
    }
}

// Writes the class of each label of the pattern and of the board; two labels have one class exactly when they are alike.
// Entries beyond the labels keep their contents, and a refusal alters nothing.
pub fn label_parts<L: Label>(
    pattern: &[L],
    board: &[L],
    pattern_classes: &mut [u16],
    board_classes: &mut [u16],
) -> Result<(), Refusal>
    ensures answer { result ≡ verdict L.proper pattern.now board.now (length pattern_classes.old) (length board_classes.old) }
    ensures pattern { pattern_classes.new ≡ (if is_ok result then classed L.same pattern.now board.now pattern.now pattern_classes.old else pattern_classes.old) }
    ensures board { board_classes.new ≡ (if is_ok result then classed L.same pattern.now board.now board.now board_classes.old else board_classes.old) }
    ensures tells { is_ok result ≡ true → Tells L.same pattern.now board.now }
    ensures wrote { is_ok result ≡ true → Wrote L.proper L.same pattern.now board.now (take (length pattern.now) pattern_classes.new) (take (length board.now) board_classes.new) }
{
    if pattern.len() > PATTERN_LABELS || board.len() > BOARD_LABELS {
        return Err(Refusal {
            reason: Reason::LabelCount,
            place: 0,
        });
    }
    if pattern_classes.len() < pattern.len() || board_classes.len() < board.len() {
        return Err(Refusal {
            reason: Reason::ClassRoom,
            place: 0,
        });
    }
    check_fit(pattern, 0)?;
    check_fit(board, PATTERN_LABELS)?;
    let sides = Sides { pattern, board };
    sides.write(pattern, pattern_classes);
    sides.write(board, board_classes);
    Ok(())
}
