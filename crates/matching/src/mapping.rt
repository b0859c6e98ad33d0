// The part map of a hit.
ghost use Rattle.std.specs.Prelude.{◌≡◌, ℕ, ◌<◌, ◌≤◌, true, ◌++◌, length, drop, replicate, if◌then◌else◌, Ok, Err};
ghost use Rattle.circuit.specs.Circuit.{meets_cell_rule};
ghost use Rattle.pattern.specs.Drawn.{drawn};
ghost use Rattle.matching.specs.Mapped.{verdict, is_map, mapped};

use super::answer::MapAnswer;
use super::looks::{differ, first_past};
use super::seen::Seen;
use super::start::CellTest;
use super::taken::Taken;
use circuit::{Board, Reason, Refusal};
use pattern::Pattern;

// Gives each pattern part in order the smallest untaken board part of its cell.
fn place_all<B: Board>(
    p: &Pattern,
    board: &Seen<'_, B>,
    out: &mut [u16],
    guard: &mut Taken<'_>,
) -> Result<(), Refusal>
    requires long { length board.now.start.now ≡ length (drawn p.now).nets }
    requires rule { meets_cell_rule (drawn p.now) (length (drawn p.now).nets) (B.Board.means board.now.circuit.now) board.now.start.now ≡ true }
    requires room { length (drawn p.now).classes ≤ length out.old }
    requires bytes { length (B.Board.means board.now.circuit.now).classes ≤ length guard.old.bytes.now }
    requires untaken { guard.old.bytes.now ≡ replicate (length guard.old.bytes.now) 0 }
    ensures answer { result ≡ Ok tt }
    ensures out { out.new ≡ mapped (drawn p.now) (B.Board.means board.now.circuit.now) board.now.start.now ++ drop (length (drawn p.now).classes) out.old }
    ensures lender { guard.new.bytes.ghost_name ≡ guard.old.bytes.ghost_name }
    ensures len { length guard.new.bytes.now ≡ length guard.old.bytes.now }
{
    let pattern = board.first_nets_of(p);
    // A pattern answers part by part, so there is no slice of parts to go through.
    for u in 0..p.parts() {
        let none_left = Refusal {
            reason: Reason::NoPartLeft,
            place: u as usize,
        };
        let v = guard.first_free(board, pattern.cell(u)).ok_or(none_left)?;
        guard.mark(v as usize);
        out[u as usize] = v;
    }
    Ok(())
}

// The part map of a tuple that is a hit; the taken-table ends all zeros on every way out.
// Pattern, board and tuple are parameters here, since they are lent for the call; inside, board and tuple are one.
pub fn map<B: Board>(
    p: &Pattern,
    b: &B,
    tuple: &[u16],
    out: &mut [u16],
    taken: &mut [u8],
) -> Result<MapAnswer, Refusal>
    ensures answer { result ≡ verdict (drawn p.now) (B.Board.means b.now) tuple.now (length out.old) (length taken.old) }
    ensures out { out.new ≡ (if is_map result then mapped (drawn p.now) (B.Board.means b.now) tuple.now ++ drop (length (drawn p.now).classes) out.old else out.old) }
    ensures cleared { taken.new ≡ replicate (length taken.old) 0 }
{
    let mut guard = Taken::over(taken);
    if tuple.len() != p.nets() as usize {
        return Err(Refusal {
            reason: Reason::TupleLength,
            place: 0,
        });
    }
    if let Some(i) = first_past(tuple, b.nets()) {
        return Err(Refusal {
            reason: Reason::TupleNet,
            place: i,
        });
    }
    if out.len() < p.parts() as usize {
        return Err(Refusal {
            reason: Reason::ShortOutput,
            place: 0,
        });
    }
    if guard.len() < b.parts() as usize {
        return Err(Refusal {
            reason: Reason::ShortTaken,
            place: 0,
        });
    }
    if !differ(tuple) || !CellTest::new().holds(p, b, tuple) {
        return Ok(MapAnswer::NoHit);
    }
    place_all(p, &Seen::under(b, tuple), out, &mut guard)?;
    Ok(MapAnswer::Map)
}
