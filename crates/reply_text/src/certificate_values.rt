//! The certificate that is taken out of a line, where it is within its ranges.
ghost use Rattle.std.specs.Prelude.{◌≡◌, IfOk, codes, option_map, Some};
ghost use Rattle.frac.specs.Range.{limit};
ghost use Rattle.serde_json.specs.View.{view, items_view};
ghost use Rattle.reply_print.specs.NumberValues.{fraction_from as fraction_read};
ghost use Rattle.frac.specs.ValueOf.{value_from};
ghost use Rattle.reply_text.specs.BatchValues.{fraction_from as fraction_found, whole_from};
ghost use Rattle.reply_text.specs.OutcomeValues.{claim_from as claim_found, state_at as state_found, point_from as point_found, multiplier_from as multiplier_found, leaf_from as leaf_found, node_from as node_found, nodes_from, signs_of, cover_from as cover_found, certificate_from as certificate_found, pair_from as pair_found, operator_of as operator_named, wide_from as wide_found};
ghost use Rattle.reply_text.specs.Taking.{list_at as list_found, take_at};

use crate::taking::{ItemReader, list_at, natural_at, whole_within};
use cert_check::{Claim, Cover, Mark, Measure, Points, Weighted};
use exact_num::{Exact, Operator, Wide};
use form::State;
use frac::Frac128;
use limits::MAX_PLACE;
use reply_print::fraction_texts::{LIMIT, split_at_slash};
use reply_print::look::{is_word, word_at};
use reply_print::numbers::value_of_digits;
use serde_json::Value;
use sign_tree::{Multiplier, Multipliers, Node, Nodes, SignTree};
use std::alloc::{AllocError, Global};

// The fraction of the texts of its parts, where they are in lowest terms and at most 2^127 - 1 in
// size.
fn fraction_of_parts(above: &[u8], below: Option<&[u8]>) -> Option<Frac128>
    ensures { result ≡ value_from (fraction_read above.now (option_map (λ b. b.now) below.entry)) }
{
    let numerator = whole_within(above, LIMIT)?;
    let denominator = match below {
        Some(digits) => value_of_digits(digits),
        None => 1,
    };
    if denominator > LIMIT {
        return None;
    }
    Frac128::from_parts(numerator, denominator as i128)
}

/// The fraction of a text, where its parts are within their ranges.
pub fn fraction_from(value: &Value) -> Option<Frac128>
    ensures { result ≡ fraction_found (view value.now) }
{
    let text = value.as_str()?;
    let halves = split_at_slash(text.as_bytes());
    fraction_of_parts(halves.above, halves.below)
}

// The fills of a batch.
struct FractionReader;

impl ItemReader for FractionReader {
    type Item = Frac128;

    ghost found = { λ _. fraction_found };

    fn item_from(&self, _alloc: Global, value: &Value) -> Result<Option<Frac128>, AllocError> {
        Ok(fraction_from(value))
    }
}

/// The fraction at a key, where its parts are within their ranges.
pub fn fraction_at(value: &Value, key: &str) -> Option<Frac128>
    ensures { result ≡ take_at key.now fraction_found (view value.now) }
{
    let found = value.get(key)?;
    fraction_from(found)
}

/// The claim of a line: its liability and its surplus.
pub fn claim_at(value: &Value) -> Option<Claim>
    ensures { result ≡ claim_found (view value.now) }
{
    let liability = fraction_at(value, "liability")?;
    let surplus = fraction_at(value, "surplus")?;
    Some(Claim { liability, surplus })
}

/// The fills of a line. The only error is want of memory.
pub fn fills_at(alloc: Global, value: &Value) -> Result<Option<Vec<Frac128>>, AllocError>
    ensures { IfOk result (λ o. option_map (λ v. v.items) o
        ≡ list_found (codes "fills") fraction_found (view value.now)) }
{
    list_at(alloc, value, "fills", &FractionReader)
}

// The entries of a state.
struct EntryReader;

impl ItemReader for EntryReader {
    type Item = i128;

    ghost found = { λ _. whole_from limit };

    fn item_from(&self, _alloc: Global, value: &Value) -> Result<Option<i128>, AllocError> {
        let Some(text) = value.as_str() else {
            return Ok(None);
        };
        Ok(whole_within(text.as_bytes(), LIMIT))
    }
}

/// The state at a key, where its entries are within their ranges. The only error is want of memory.
pub fn state_at(alloc: Global, value: &Value, key: &str) -> Result<Option<State>, AllocError>
    ensures { IfOk result (λ o. o ≡ state_found key.now (view value.now)) }
{
    let Some(entries) = list_at(alloc, value, key, &EntryReader)? else {
        return Ok(None);
    };
    Ok(State::from_entries(entries.as_slice()))
}

/// Reads a point of a measure.
pub struct PointReader;

impl ItemReader for PointReader {
    type Item = Weighted;

    ghost found = { λ _. point_found };

    fn item_from(&self, alloc: Global, value: &Value) -> Result<Option<Weighted>, AllocError> {
        let Some(state) = state_at(alloc, value, "state")? else {
            return Ok(None);
        };
        let Some(weight) = fraction_at(value, "weight") else {
            return Ok(None);
        };
        Ok(Some(Weighted { state, weight }))
    }
}

// The multipliers of a leaf.
struct MultiplierReader;

impl ItemReader for MultiplierReader {
    type Item = Multiplier;

    ghost found = { λ _. multiplier_found };

    fn item_from(&self, _alloc: Global, value: &Value) -> Result<Option<Multiplier>, AllocError> {
        let Some(place) = natural_at(value, 1, MAX_PLACE, "at") else {
            return Ok(None);
        };
        let Some(by) = fraction_at(value, "by") else {
            return Ok(None);
        };
        let place = place as u32;
        Ok(Some(Multiplier { place, by }))
    }
}

// A leaf and its multipliers. More of them than its count can hold are want of memory.
fn leaf_from(alloc: Global, value: &Value) -> Result<Option<(Node, Vec<Multiplier>)>, AllocError>
    ensures { IfOk result (λ o. option_map (λ p. (p.0, p.1.items)) o
        ≡ leaf_found (view value.now)) }
{
    let Some(multipliers) = list_at(alloc, value, "leaf", &MultiplierReader)? else {
        return Ok(None);
    };
    if multipliers.len() > u32::MAX as usize {
        return Err(AllocError);
    }
    let count = multipliers.len() as u32;
    Ok(Some((Node::Leaf { count }, multipliers)))
}

// A node, and the multipliers of a leaf.
fn node_from(alloc: Global, value: &Value) -> Result<Option<(Node, Vec<Multiplier>)>, AllocError>
    ensures { IfOk result (λ o. option_map (λ p. (p.0, p.1.items)) o
        ≡ node_found (view value.now)) }
{
    if value.get("split").is_none() {
        return leaf_from(alloc, value);
    }
    let Some(place) = natural_at(value, 1, MAX_PLACE, "split") else {
        return Ok(None);
    };
    let place = place as u32;
    Ok(Some((Node::Split { place }, Vec::new(alloc))))
}

// The nodes in preorder, and the multipliers of their leaves one after another.
fn tree_from(alloc: Global, items: &[Value]) -> Result<Option<SignTree>, AllocError>
    ensures { IfOk result (λ o. o ≡ option_map signs_of (nodes_from (items_view items.now))) }
{
    let mut nodes = Vec::new(alloc);
    let mut multipliers = Vec::new(alloc);
    for item in items {
        let Some((node, leaf)) = node_from(alloc, item)? else {
            return Ok(None);
        };
        nodes.push(node)?;
        multipliers.extend_from_slice(leaf.as_slice())?;
    }
    Ok(Some(SignTree {
        nodes: Nodes::from_vec(nodes),
        multipliers: Multipliers::from_vec(multipliers),
    }))
}

fn cover_from(alloc: Global, value: &Value) -> Result<Option<Cover>, AllocError>
    ensures { IfOk result (λ o. o ≡ cover_found (view value.now)) }
{
    if is_word(value, "line") {
        return Ok(Some(Cover::Line));
    }
    let Some(items) = value.as_array() else {
        return Ok(None);
    };
    let Some(tree) = tree_from(alloc, items)? else {
        return Ok(None);
    };
    Ok(Some(Cover::Tree(tree)))
}

/// The cover at the key "cover": the word "line", or a tree's nodes.
pub fn cover_at(alloc: Global, value: &Value) -> Result<Option<Cover>, AllocError>
    ensures { IfOk result (λ o. o ≡ take_at (codes "cover") cover_found (view value.now)) }
{
    match value.get("cover") {
        Some(found) => cover_from(alloc, found),
        None => Ok(None),
    }
}

fn certificate_from(alloc: Global, value: &Value) -> Result<Option<Mark>, AllocError>
    ensures { IfOk result (λ o. o ≡ certificate_found (view value.now)) }
{
    let Some(cover) = cover_at(alloc, value)? else {
        return Ok(None);
    };
    let Some(points) = list_at(alloc, value, "measure", &PointReader)? else {
        return Ok(None);
    };
    let measure = Measure {
        points: Points::from_vec(points),
    };
    Ok(Some(Mark::Optimal { cover, measure }))
}

/// The certificate of a line, as the mark optimal has it. The only error is want of memory.
pub fn certificate_at(alloc: Global, value: &Value) -> Result<Option<Mark>, AllocError>
    ensures { IfOk result (λ o. o
        ≡ take_at (codes "certificate") certificate_found (view value.now)) }
{
    match value.get("certificate") {
        Some(found) => certificate_from(alloc, found),
        None => Ok(None),
    }
}

fn pair_at(value: &Value, key: &str) -> Option<(i128, i128)>
    ensures { option_map (λ p. (p.0, p.1)) result ≡ take_at key.now pair_found (view value.now) }
{
    let operand = fraction_at(value, key)?;
    Some(operand.parts())
}

fn operator(word: &str) -> Operator
    ensures { result ≡ operator_named word.now }
{
    if word == "add" {
        Operator::Add
    } else if word == "mul" {
        Operator::Mul
    } else if word == "div" {
        Operator::Div
    } else {
        Operator::Whole
    }
}

fn wide_from(value: &Value) -> Option<Mark>
    ensures { result ≡ wide_found (view value.now) }
{
    let left = pair_at(value, "left")?;
    let right = pair_at(value, "right")?;
    let operator = operator(word_at(value, "operator"));
    Some(Mark::Wide(Wide {
        operator,
        left,
        right,
    }))
}

pub(crate) fn wide_at(value: &Value) -> Option<Mark>
    ensures { result ≡ take_at (codes "wide") wide_found (view value.now) }
{
    let found = value.get("wide")?;
    wide_from(found)
}
