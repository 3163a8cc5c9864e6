//! The nodes of a cover by cells that are taken out of a line, where they are within their ranges.
ghost use Rattle.std.specs.Prelude.{◌≡◌, IfOk, option_map};
ghost use Rattle.serde_json.specs.View.{items_view, view};
ghost use Rattle.reply_text.specs.Taking.{items_map};
ghost use Rattle.proposal_text.specs.CellReading.{bound_from as bound_found, cell_from as cell_found, cells_from as cells_found, class_at as class_at_key, class_from as class_found, classes_from as classes_found, full_at as full_found, leaf_from as leaf_found, multipliers_at as multipliers_at_key, multipliers_from as multipliers_found, split_from as split_found};

use crate::cells::{MAX_CLASS, are_few};
use cell_cover::cover::{ClassNumbers, Multiplier, Multipliers, Node, Nodes};
use reply_text::certificate_values::fraction_from;
use reply_text::taking::items_at;
use serde_json::Value;
use std::alloc::{AllocError, Global};

// The class of a value, where it is past the one before it and not past the last.
fn class_from(before: u32, value: &Value) -> Option<u32>
    ensures { result ≡ class_found before (view value.now) }
{
    let class = value.as_u64()?;
    if u64::from(before) < class && class <= MAX_CLASS {
        Some(class as u32)
    } else {
        None
    }
}

fn class_at(value: &Value, key: &str) -> Option<u32>
    ensures { result ≡ class_at_key key.now (view value.now) }
{
    let found = value.get(key)?;
    class_from(0, found)
}

// Classes that rise.
fn classes_from(alloc: Global, items: &[Value]) -> Result<Option<Vec<u32>>, AllocError>
    ensures { IfOk result (λ o. option_map (λ v. v.items) o
        ≡ classes_found 0 (items_view items.now)) }
{
    let mut classes = Vec::new(alloc);
    let mut last = 0;
    for item in items {
        let Some(class) = class_from(last, item) else {
            return Ok(None);
        };
        classes.push(class)?;
        last = class;
    }
    Ok(Some(classes))
}

// Classes that rise, each before its multiplier.
fn multipliers_from(alloc: Global, items: &[Value]) -> Result<Option<Vec<Multiplier>>, AllocError>
    ensures { IfOk result (λ o. option_map (λ v. v.items) o
        ≡ multipliers_found 0 (items_view items.now)) }
{
    let mut multipliers = Vec::new(alloc);
    let mut class = 0;
    let mut is_open = false;
    for item in items {
        if is_open {
            let Some(by) = fraction_from(item) else {
                return Ok(None);
            };
            multipliers.push(Multiplier { class, by })?;
        } else {
            let Some(next) = class_from(class, item) else {
                return Ok(None);
            };
            class = next;
        }
        is_open = !is_open;
    }
    if is_open {
        return Ok(None);
    }
    Ok(Some(multipliers))
}

fn multipliers_at(
    alloc: Global,
    value: &Value,
    key: &str,
) -> Result<Option<Multipliers>, AllocError>
    ensures { IfOk result (λ o. o ≡ multipliers_at_key key.now (view value.now)) }
{
    let Some(items) = items_at(value, key) else {
        return Ok(None);
    };
    let Some(multipliers) = multipliers_from(alloc, items)? else {
        return Ok(None);
    };
    Ok(Some(Multipliers::from_vec(multipliers)))
}

// The classes with their whole kink, of which there are some where they are written.
fn full_at(alloc: Global, value: &Value) -> Result<Option<ClassNumbers>, AllocError>
    ensures { IfOk result (λ o. o ≡ full_found (view value.now)) }
{
    if value.get("full").is_none() {
        return Ok(Some(ClassNumbers::from_vec(Vec::new(alloc))));
    }
    let Some(items) = items_at(value, "full") else {
        return Ok(None);
    };
    let Some(classes) = classes_from(alloc, items)? else {
        return Ok(None);
    };
    if classes.is_empty() {
        return Ok(None);
    }
    Ok(Some(ClassNumbers::from_vec(classes)))
}

fn bound_from(alloc: Global, value: &Value) -> Result<Option<Node>, AllocError>
    ensures { IfOk result (λ o. o ≡ bound_found (view value.now)) }
{
    let Some(class) = class_at(value, "bound") else {
        return Ok(None);
    };
    let Some(minus) = multipliers_at(alloc, value, "minus")? else {
        return Ok(None);
    };
    let Some(plus) = multipliers_at(alloc, value, "plus")? else {
        return Ok(None);
    };
    Ok(Some(Node::Bound { class, minus, plus }))
}

fn leaf_from(alloc: Global, value: &Value) -> Result<Option<Node>, AllocError>
    ensures { IfOk result (λ o. o ≡ leaf_found (view value.now)) }
{
    let Some(full) = full_at(alloc, value)? else {
        return Ok(None);
    };
    let Some(multipliers) = multipliers_at(alloc, value, "leaf")? else {
        return Ok(None);
    };
    Ok(Some(Node::Leaf { full, multipliers }))
}

fn split_from(value: &Value) -> Option<Node>
    ensures { result ≡ split_found (view value.now) }
{
    let class = class_at(value, "split")?;
    Some(Node::Split { class })
}

fn cell_from(alloc: Global, value: &Value) -> Result<Option<Node>, AllocError>
    ensures { IfOk result (λ o. o ≡ cell_found (view value.now)) }
{
    if value.get("split").is_some() {
        return Ok(split_from(value));
    }
    if value.get("bound").is_some() {
        return bound_from(alloc, value);
    }
    leaf_from(alloc, value)
}

// The nodes of a list.
fn nodes_from(alloc: Global, items: &[Value]) -> Result<Option<Vec<Node>>, AllocError>
    ensures { IfOk result (λ o. option_map (λ v. v.items) o
        ≡ items_map cell_found (items_view items.now)) }
{
    let mut nodes = Vec::new(alloc);
    for item in items {
        let Some(node) = cell_from(alloc, item)? else {
            return Ok(None);
        };
        nodes.push(node)?;
    }
    Ok(Some(nodes))
}

// The nodes of a cover by cells.
pub(crate) fn cells_from(alloc: Global, value: &Value) -> Result<Option<Nodes>, AllocError>
    ensures { IfOk result (λ o. o ≡ cells_found (view value.now)) }
{
    let Some(items) = items_at(value, "cells") else {
        return Ok(None);
    };
    let Some(nodes) = nodes_from(alloc, items)? else {
        return Ok(None);
    };
    if !are_few(nodes.as_slice()) {
        return Ok(None);
    }
    Ok(Some(Nodes::from_vec(nodes)))
}
