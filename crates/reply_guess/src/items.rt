// Lists of items.
use crate::cursor::Cursor;
use crate::stop::Unread;
use form::Side;
use frac::Frac128;
use settlement::PaidOut;
use std::alloc::{AllocError, Global};

// What a list has.
pub(crate) trait Item: Copy {
    // The item that stands here.
    fn read(cursor: &mut Cursor<'_>) -> Result<Self, Unread>;
}

impl Item for Frac128 {
    fn read(cursor: &mut Cursor<'_>) -> Result<Self, Unread> {
        cursor.fraction()
    }
}

impl Item for PaidOut {
    fn read(cursor: &mut Cursor<'_>) -> Result<Self, Unread> {
        cursor.skip(b"{\"account\":")?;
        let account = cursor.number()?;
        cursor.skip(b",\"amount\":")?;
        let gain = cursor.whole_text()?;
        let side = if gain < 0 { Side::Sell } else { Side::Buy };
        let Ok(amount) = u64::try_from(gain.unsigned_abs()) else {
            return Err(Unread::Unlike);
        };
        cursor.skip(b",\"batch\":")?;
        let batch = cursor.number()?;
        cursor.skip(b",\"order\":")?;
        let order = cursor.natural();
        cursor.skip(b"}")?;
        Ok(PaidOut {
            batch,
            order,
            account,
            side,
            amount,
        })
    }
}

// Adds an item to those that are there.
pub(crate) fn push<T: Copy>(items: &mut Vec<T>, item: T) -> Result<(), AllocError> {
    items.push(item)?;
    Ok(())
}

// Adds the items of a list to those that are there: how many they are.
pub(crate) fn add_items<T: Item>(
    cursor: &mut Cursor<'_>,
    items: &mut Vec<T>,
) -> Result<usize, Unread> {
    cursor.skip(b"[")?;
    if cursor.has(b"]") {
        return Ok(0);
    }
    for before in 0..cursor.left() {
        let item = T::read(cursor)?;
        push(items, item)?;
        if !cursor.has(b",") {
            cursor.skip(b"]")?;
            return Ok(before + 1);
        }
    }
    Err(Unread::Unlike)
}

// The items of a list.
pub(crate) fn items_of<T: Item>(alloc: Global, cursor: &mut Cursor<'_>) -> Result<Vec<T>, Unread> {
    let mut items = Vec::new(alloc);
    add_items(cursor, &mut items)?;
    Ok(items)
}
