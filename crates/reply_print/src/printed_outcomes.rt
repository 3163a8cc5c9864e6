//! Certificates and steps that did not fit, added to a line.
ghost use Rattle.std.specs.Prelude.{true, ◌≡◌, ◌++◌, OnOk, codes, drop, take};
ghost use Rattle.reply_print.specs.BatchPieces.{each, natural};
ghost use Rattle.reply_print.specs.OutcomePieces.{certificate_field, certificate_piece, count_of as count_is, cover_piece, multiplier_piece, node_piece, node_pieces, pair_words, point_piece, wide_field, wide_piece};
ghost use Rattle.reply_print.specs.Piece.{Fields, field, fields_text, list, no_fields, object, piece_text};

use crate::printing::{
    Printed, add_field, add_items, add_key, add_number, add_words, append, append_parts, comma,
};
use crate::words::operator;
use cert_check::{Cover, Mark, Measure, Weighted};
use exact_num::Wide;
use sign_tree::{Multiplier, Node};
use std::alloc::AllocError;

impl Printed for Weighted {
    ghost piece = { point_piece };

    fn print(&self, line: &mut Vec<u8>) -> Result<(), AllocError> {
        append(line, "{")?;
        add_items(
            line,
            false,
            "state",
            &self.state.entries[..self.state.count as usize],
        )?;
        add_field(line, true, "weight", &self.weight)?;
        append(line, "}")
    }
}

impl Printed for Multiplier {
    ghost piece = { multiplier_piece };

    fn print(&self, line: &mut Vec<u8>) -> Result<(), AllocError> {
        append(line, "{")?;
        add_number(line, false, "at", u64::from(self.place))?;
        add_field(line, true, "by", &self.by)?;
        append(line, "}")
    }
}

fn add_split(line: &mut Vec<u8>, place: u32) -> Result<(), AllocError>
    ensures { OnOk result (line.new.items ≡ line.old.items
        ++ piece_text (object (field (codes "split") (natural place) no_fields))) }
{
    append(line, "{")?;
    add_number(line, false, "split", u64::from(place))?;
    append(line, "}")
}

fn add_leaf(line: &mut Vec<u8>, multipliers: &[Multiplier]) -> Result<(), AllocError>
    ensures { OnOk result (line.new.items ≡ line.old.items
        ++ piece_text (object (field (codes "leaf") (each multiplier_piece multipliers.now) no_fields))) }
{
    append(line, "{")?;
    add_items(line, false, "leaf", multipliers)?;
    append(line, "}")
}

// Adds a node with its multipliers.
fn add_node(line: &mut Vec<u8>, node: &Node, multipliers: &[Multiplier]) -> Result<(), AllocError>
    ensures { OnOk result (line.new.items
        ≡ line.old.items ++ piece_text (node_piece node.now multipliers.now)) }
{
    match node {
        Node::Split { place } => add_split(line, *place),
        Node::Leaf { .. } => add_leaf(line, multipliers),
    }
}

// How many multipliers a node takes.
fn count_of(node: &Node) -> usize
    ensures { result ≡ count_is node.now }
{
    match node {
        Node::Split { .. } => 0,
        Node::Leaf { count } => *count as usize,
    }
}

// The first multipliers, as many as there are up to a count, and those behind them.
fn split(multipliers: &[Multiplier], count: usize) -> (&[Multiplier], &[Multiplier])
    ensures own { result.0.now ≡ take count multipliers.now }
    ensures rest { result.1.now ≡ drop count multipliers.now }
{
    multipliers.split_at(count.min(multipliers.len()))
}

// Adds the nodes in preorder; each leaf has the next multipliers.
fn add_nodes(
    line: &mut Vec<u8>,
    nodes: &[Node],
    multipliers: &[Multiplier],
) -> Result<(), AllocError>
    ensures { OnOk result (line.new.items
        ≡ line.old.items ++ piece_text (list (node_pieces nodes.now multipliers.now))) }
{
    append(line, "[")?;
    let mut later = false;
    let mut left = multipliers;
    for node in nodes {
        let (own, rest) = split(left, count_of(node));
        append(line, comma(later))?;
        add_node(line, node, own)?;
        later = true;
        left = rest;
    }
    append(line, "]")
}

fn add_cover(line: &mut Vec<u8>, cover: &Cover) -> Result<(), AllocError>
    ensures { OnOk result (line.new.items ≡ line.old.items ++ piece_text (cover_piece cover.now)) }
{
    match cover {
        Cover::Line => append(line, "\"line\""),
        Cover::Tree(tree) => add_nodes(line, tree.nodes.as_slice(), tree.multipliers.as_slice()),
    }
}

/// Adds a certificate. The only error is want of memory.
pub fn add_certificate(
    line: &mut Vec<u8>,
    cover: &Cover,
    measure: &Measure,
) -> Result<(), AllocError>
    ensures { OnOk result (line.new.items
        ≡ line.old.items ++ piece_text (certificate_piece cover.now measure.now)) }
{
    append(line, "{")?;
    add_key(line, false, "cover")?;
    add_cover(line, cover)?;
    add_items(line, true, "measure", measure.points.as_slice())?;
    append(line, "}")
}

// Adds a certificate under its key.
fn add_certificate_field(
    line: &mut Vec<u8>,
    cover: &Cover,
    measure: &Measure,
) -> Result<(), AllocError>
    ensures { OnOk result ((fs : Fields) → line.new.items ++ fields_text true fs
        ≡ line.old.items ++ fields_text true
        (field (codes "certificate") (certificate_piece cover.now measure.now) fs)) }
{
    add_key(line, true, "certificate")?;
    add_certificate(line, cover, measure)
}

// Adds the certificate of the mark optimal.
pub(crate) fn add_proof(line: &mut Vec<u8>, mark: &Mark) -> Result<(), AllocError>
    ensures { OnOk result ((fs : Fields) → line.new.items ++ fields_text true fs
        ≡ line.old.items ++ fields_text true (certificate_field mark.now fs)) }
{
    match mark {
        Mark::Optimal { cover, measure } => add_certificate_field(line, cover, measure),
        Mark::Wide(_) | Mark::Budget => Ok(()),
    }
}

// Adds an operand under its key.
fn add_operand(
    line: &mut Vec<u8>,
    later: bool,
    key: &str,
    operand: (i128, i128),
) -> Result<(), AllocError>
    ensures { OnOk result ((fs : Fields) → line.new.items ++ fields_text true fs
        ≡ line.old.items ++ fields_text later (field key.now (pair_words operand) fs)) }
{
    add_key(line, later, key)?;
    append(line, "\"")?;
    append_parts(line, operand.0, operand.1.unsigned_abs())?;
    append(line, "\"")
}

fn add_wide(line: &mut Vec<u8>, wide: &Wide) -> Result<(), AllocError>
    ensures { OnOk result (line.new.items ≡ line.old.items ++ piece_text (wide_piece wide.now)) }
{
    append(line, "{")?;
    add_operand(line, false, "left", wide.left)?;
    add_words(line, true, "operator", operator(wide.operator))?;
    add_operand(line, true, "right", wide.right)?;
    append(line, "}")
}

// Adds a step under its key.
fn add_wide_field(line: &mut Vec<u8>, wide: &Wide) -> Result<(), AllocError>
    ensures { OnOk result (line.new.items ++ fields_text true no_fields ≡ line.old.items
        ++ fields_text true (field (codes "wide") (wide_piece wide.now) no_fields)) }
{
    add_key(line, true, "wide")?;
    add_wide(line, wide)
}

// Adds the step of the mark wide.
pub(crate) fn add_step(line: &mut Vec<u8>, mark: &Mark) -> Result<(), AllocError>
    ensures { OnOk result (line.new.items ++ fields_text true no_fields
        ≡ line.old.items ++ fields_text true (wide_field mark.now)) }
{
    match mark {
        Mark::Wide(wide) => add_wide_field(line, wide),
        Mark::Optimal { .. } | Mark::Budget => Ok(()),
    }
}
