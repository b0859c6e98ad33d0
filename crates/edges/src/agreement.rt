// Whether a board answers as its tables say.
use crate::drafts::Tables;
use circuit::Board;
use std::iter::once;

fn classes_agree<B: Board>(board: &B, classes: &[u16]) -> bool {
    board.parts() as usize == classes.len()
        && board.class(board.parts()).is_none()
        && (0..board.parts())
            .zip(classes)
            .all(|(part, class)| board.class(part) == Some(*class))
}

fn net_agrees<B: Board>(board: &B, net: u16, list: &[u16]) -> bool {
    let size = board.size(net);
    size as usize == list.len()
        && board.part(net, size).is_none()
        && (0..size).zip(list).all(|(place, part)| board.part(net, place) == Some(*part)
            && board.on(*part, net))
}

// The joins from one place up to another, none where they do not go so far.
fn joins_between(joins: &[u16], from: u16, to: u16) -> &[u16] {
    joins.get(from as usize..to as usize).unwrap_or(&[])
}

fn nets_agree<B: Board>(board: &B, ends: &[u16], joins: &[u16]) -> bool {
    let starts = once(0).chain(ends.iter().copied());
    board.nets() as usize == ends.len()
        && (0..board.nets()).zip(starts.zip(ends)).all(|(net, (start, end))| net_agrees(
            board,
            net,
            joins_between(joins, start, *end),
        ))
}

pub fn answers_as<B: Board>(board: &B, tables: &Tables) -> bool {
    classes_agree(board, &tables.classes) && nets_agree(board, &tables.ends, &tables.joins)
}
