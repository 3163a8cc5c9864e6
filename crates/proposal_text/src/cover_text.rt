//! The certificates of proposals, added to a line.
ghost use Rattle.std.specs.Prelude.{false, true, ◌≡◌, ◌++◌, OnOk, codes};
ghost use Rattle.reply_print.specs.BatchPieces.{each, fraction, natural};
ghost use Rattle.reply_print.specs.Piece.{Fields, Pieces, comma_after, fields_text, piece, piece_text, pieces_text, words};
ghost use Rattle.proposal_text.specs.CoverPieces.{cell_piece, cells_piece, full_field, is_some_class, multipliers_piece, proof_piece, proof_with};
ghost use Rattle.cell_cover.specs.declared.cover.Node.TheVariants as cell;

use cell_cover::cover::{Multiplier, Node};
use cert_check::Measure;
use proposal_check::ProposalCover;
use reply_print::printed_outcomes::add_certificate;
use reply_print::printing::{Printed, add_items, add_key, add_number, add_words, append};
use std::alloc::AllocError;

// What stands before an item of a list.
fn comma(later: bool) -> &'static str
    ensures { result.now ≡ comma_after later }
{
    if later { "," } else { "" }
}

// Adds a class and its multiplier, behind a comma if they are later ones.
fn add_multiplier(
    line: &mut Vec<u8>,
    later: bool,
    multiplier: &Multiplier,
) -> Result<(), AllocError>
    ensures { OnOk result ((ps : Pieces) → line.new.items ++ pieces_text true ps
        ≡ line.old.items ++ pieces_text later
        (piece (natural multiplier.now.class) (piece (fraction multiplier.now.by) ps))) }
{
    append(line, comma(later))?;
    u64::from(multiplier.class).print(line)?;
    append(line, ",")?;
    multiplier.by.print(line)
}

// Adds classes and their multipliers, in turn.
fn add_multipliers(line: &mut Vec<u8>, multipliers: &[Multiplier]) -> Result<(), AllocError>
    ensures { OnOk result (line.new.items
        ≡ line.old.items ++ piece_text (multipliers_piece multipliers.now)) }
{
    append(line, "[")?;
    let mut later = false;
    for multiplier in multipliers {
        add_multiplier(line, later, multiplier)?;
        later = true;
    }
    append(line, "]")
}

// Adds a class, behind a comma if it is a later one.
fn add_class(line: &mut Vec<u8>, later: bool, class: u32) -> Result<(), AllocError>
    ensures { OnOk result ((ps : Pieces) → line.new.items ++ pieces_text true ps
        ≡ line.old.items ++ pieces_text later (piece (natural class) ps)) }
{
    append(line, comma(later))?;
    u64::from(class).print(line)
}

// Adds a list of classes.
fn add_classes(line: &mut Vec<u8>, classes: &[u32]) -> Result<(), AllocError>
    ensures { OnOk result (line.new.items
        ≡ line.old.items ++ piece_text (each natural classes.now)) }
{
    append(line, "[")?;
    let mut later = false;
    for class in classes {
        add_class(line, later, *class)?;
        later = true;
    }
    append(line, "]")
}

// Adds the classes with their whole kink, where there are any.
fn add_full(line: &mut Vec<u8>, full: &[u32]) -> Result<(), AllocError>
    ensures { OnOk result ((fs : Fields) → line.new.items ++ fields_text (is_some_class full.now) fs
        ≡ line.old.items ++ fields_text false (full_field full.now fs)) }
{
    if !is_some_class(full) {
        return Ok(());
    }
    add_key(line, false, "full")?;
    add_classes(line, full)
}

fn is_some_class(classes: &[u32]) -> bool
    ensures { result ≡ is_some_class classes.now }
{
    !classes.is_empty()
}

fn add_leaf(line: &mut Vec<u8>, full: &[u32], multipliers: &[Multiplier]) -> Result<(), AllocError>
    ensures { OnOk result (line.new.items
        ≡ line.old.items ++ piece_text (cell_piece (cell.Leaf full.now multipliers.now))) }
{
    append(line, "{")?;
    add_full(line, full)?;
    add_key(line, is_some_class(full), "leaf")?;
    add_multipliers(line, multipliers)?;
    append(line, "}")
}

fn add_bound(
    line: &mut Vec<u8>,
    class: u32,
    minus: &[Multiplier],
    plus: &[Multiplier],
) -> Result<(), AllocError>
    ensures { OnOk result (line.new.items
        ≡ line.old.items ++ piece_text (cell_piece (cell.Bound class minus.now plus.now))) }
{
    append(line, "{")?;
    add_number(line, false, "bound", u64::from(class))?;
    add_key(line, true, "minus")?;
    add_multipliers(line, minus)?;
    add_key(line, true, "plus")?;
    add_multipliers(line, plus)?;
    append(line, "}")
}

fn add_split(line: &mut Vec<u8>, class: u32) -> Result<(), AllocError>
    ensures { OnOk result (line.new.items
        ≡ line.old.items ++ piece_text (cell_piece (cell.Split class))) }
{
    append(line, "{")?;
    add_number(line, false, "split", u64::from(class))?;
    append(line, "}")
}

fn add_node(line: &mut Vec<u8>, node: &Node) -> Result<(), AllocError>
    ensures { OnOk result (line.new.items ≡ line.old.items ++ piece_text (cell_piece node.now)) }
{
    match node {
        Node::Split { class } => add_split(line, *class),
        Node::Bound { class, minus, plus } => {
            add_bound(line, *class, minus.as_slice(), plus.as_slice())
        }
        Node::Leaf { full, multipliers } => add_leaf(line, full.as_slice(), multipliers.as_slice()),
    }
}

// Adds the nodes in preorder.
fn add_nodes(line: &mut Vec<u8>, nodes: &[Node]) -> Result<(), AllocError>
    ensures { OnOk result (line.new.items
        ≡ line.old.items ++ piece_text (each cell_piece nodes.now)) }
{
    append(line, "[")?;
    let mut later = false;
    for node in nodes {
        append(line, comma(later))?;
        add_node(line, node)?;
        later = true;
    }
    append(line, "]")
}

fn add_cells(line: &mut Vec<u8>, nodes: &[Node]) -> Result<(), AllocError>
    ensures { OnOk result (line.new.items ≡ line.old.items ++ piece_text (cells_piece nodes.now)) }
{
    append(line, "{")?;
    add_key(line, false, "cells")?;
    add_nodes(line, nodes)?;
    append(line, "}")
}

// Adds a match and a measure.
fn add_matched(line: &mut Vec<u8>, measure: &Measure) -> Result<(), AllocError>
    ensures { OnOk result (line.new.items
        ≡ line.old.items ++ piece_text (proof_with (words (codes "match")) measure.now)) }
{
    append(line, "{")?;
    add_words(line, false, "cover", "match")?;
    add_items(line, true, "measure", measure.points.as_slice())?;
    append(line, "}")
}

// Adds cells and a measure.
fn add_celled(line: &mut Vec<u8>, nodes: &[Node], measure: &Measure) -> Result<(), AllocError>
    ensures { OnOk result (line.new.items
        ≡ line.old.items ++ piece_text (proof_with (cells_piece nodes.now) measure.now)) }
{
    append(line, "{")?;
    add_key(line, false, "cover")?;
    add_cells(line, nodes)?;
    add_items(line, true, "measure", measure.points.as_slice())?;
    append(line, "}")
}

// Adds the certificate of a proposal.
pub(crate) fn add_proof(
    line: &mut Vec<u8>,
    cover: &ProposalCover,
    measure: &Measure,
) -> Result<(), AllocError>
    ensures { OnOk result (line.new.items
        ≡ line.old.items ++ piece_text (proof_piece cover.now measure.now)) }
{
    match cover {
        ProposalCover::Checked(checked) => add_certificate(line, checked, measure),
        ProposalCover::Match => add_matched(line, measure),
        ProposalCover::Cells(nodes) => add_celled(line, nodes.as_slice(), measure),
    }
}
