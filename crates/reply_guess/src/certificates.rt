// The certificate of a cleared batch.
use crate::cursor::Cursor;
use crate::items::{Item, add_items, items_of, push};
use crate::stop::Unread;
use cert_check::{Cover, Mark, Measure, Points, Weighted};
use form::State;
use sign_tree::{Multiplier, Multipliers, Node, Nodes, SignTree};
use std::alloc::Global;

impl Item for Multiplier {
    fn read(cursor: &mut Cursor<'_>) -> Result<Self, Unread> {
        cursor.skip(b"{\"at\":")?;
        let place = cursor.number()?;
        cursor.skip(b",\"by\":")?;
        let by = cursor.fraction()?;
        cursor.skip(b"}")?;
        Ok(Multiplier { place, by })
    }
}

fn state(cursor: &mut Cursor<'_>) -> Result<State, Unread> {
    cursor.skip(b"[")?;
    let mut entries = [0; 9];
    for i in 0..9 {
        entries[i] = cursor.whole_text()?;
        if !cursor.has(b",") {
            cursor.skip(b"]")?;
            return State::from_entries(&entries[..=i]).ok_or(Unread::Unlike);
        }
    }
    Err(Unread::Unlike)
}

impl Item for Weighted {
    fn read(cursor: &mut Cursor<'_>) -> Result<Self, Unread> {
        cursor.skip(b"{\"state\":")?;
        let state = state(cursor)?;
        cursor.skip(b",\"weight\":")?;
        let weight = cursor.fraction()?;
        cursor.skip(b"}")?;
        Ok(Weighted { state, weight })
    }
}

// A node. The multipliers of a leaf go behind those of the leaves before it.
fn node(cursor: &mut Cursor<'_>, multipliers: &mut Vec<Multiplier>) -> Result<Node, Unread> {
    if cursor.has(b"{\"split\":") {
        let place = cursor.number()?;
        cursor.skip(b"}")?;
        return Ok(Node::Split { place });
    }
    cursor.skip(b"{\"leaf\":")?;
    let Ok(count) = u32::try_from(add_items(cursor, multipliers)?) else {
        return Err(Unread::Unlike);
    };
    cursor.skip(b"}")?;
    Ok(Node::Leaf { count })
}

// A tree, whose opening bracket is behind.
fn tree(alloc: Global, cursor: &mut Cursor<'_>) -> Result<SignTree, Unread> {
    let mut nodes = Vec::new(alloc);
    let mut multipliers = Vec::new(alloc);
    for _ in 0..cursor.left() {
        push(&mut nodes, node(cursor, &mut multipliers)?)?;
        if !cursor.has(b",") {
            cursor.skip(b"]")?;
            return Ok(SignTree {
                nodes: Nodes::from_vec(nodes),
                multipliers: Multipliers::from_vec(multipliers),
            });
        }
    }
    Err(Unread::Unlike)
}

fn cover(alloc: Global, cursor: &mut Cursor<'_>) -> Result<Cover, Unread> {
    if cursor.has(b"[") {
        return Ok(Cover::Tree(tree(alloc, cursor)?));
    }
    cursor.skip(b"\"line\"")?;
    Ok(Cover::Line)
}

// The mark of a line with a certificate here, or the mark that has neither it nor a step.
pub(crate) fn mark(alloc: Global, cursor: &mut Cursor<'_>) -> Result<Mark, Unread> {
    if !cursor.has(b",\"certificate\":{\"cover\":") {
        return Ok(Mark::Budget);
    }
    let cover = cover(alloc, cursor)?;
    cursor.skip(b",\"measure\":")?;
    let measure = Measure {
        points: Points::from_vec(items_of(alloc, cursor)?),
    };
    cursor.skip(b"}")?;
    Ok(Mark::Optimal { cover, measure })
}

// Steps over the word of a mark.
pub(crate) fn skip_word(cursor: &mut Cursor<'_>, mark: &Mark) -> Result<(), Unread> {
    match mark {
        Mark::Optimal { .. } => cursor.skip(b"\"optimal\""),
        Mark::Budget if cursor.has(b"\"budget\"") => Ok(()),
        Mark::Budget | Mark::Wide(_) => Err(Unread::Unlike),
    }
}
