// The orders of a cleared batch.
use crate::cursor::Cursor;
use crate::items::Item;
use crate::stop::Unread;
use form::{Bundle, Form, Leg, Order, Side, are_legs};

// An option.
fn form(cursor: &mut Cursor<'_>) -> Result<Form, Unread> {
    cursor.skip(b"[")?;
    let mut entries = [0; 9];
    for i in 0..9 {
        entries[i] = cursor.entry()?;
        if !cursor.has(b",") {
            cursor.skip(b"]")?;
            return Form::from_entries(&entries[..=i]).ok_or(Unread::Unlike);
        }
    }
    Err(Unread::Unlike)
}

fn leg(cursor: &mut Cursor<'_>) -> Result<Leg, Unread> {
    cursor.skip(b"{\"count\":")?;
    let Ok(count) = i16::try_from(cursor.entry()?) else {
        return Err(Unread::Unlike);
    };
    cursor.skip(b",\"form\":")?;
    let form = form(cursor)?;
    cursor.skip(b"}")?;
    Ok(Leg { count, form })
}

// The bundle of these legs, behind which their list ends.
fn bundle_of(cursor: &mut Cursor<'_>, legs: &[Leg]) -> Result<Bundle, Unread> {
    cursor.skip(b"]")?;
    if !are_legs(legs) {
        return Err(Unread::Unlike);
    }
    Ok(Bundle::from_legs(legs))
}

// The bundle of one to four legs.
fn legs(cursor: &mut Cursor<'_>) -> Result<Bundle, Unread> {
    cursor.skip(b"[")?;
    let mut legs = [leg(cursor)?; 4];
    for i in 1..4 {
        if !cursor.has(b",") {
            return bundle_of(cursor, &legs[..i]);
        }
        legs[i] = leg(cursor)?;
    }
    bundle_of(cursor, &legs)
}

// A form, as version 1 has it, or the legs of version 2.
fn bundle(cursor: &mut Cursor<'_>) -> Result<Bundle, Unread> {
    if cursor.has(b",\"form\":") {
        return Ok(Bundle::one(form(cursor)?));
    }
    cursor.skip(b",\"legs\":")?;
    legs(cursor)
}

fn side(cursor: &mut Cursor<'_>) -> Result<Side, Unread> {
    if cursor.has(b"\"buy\"") {
        return Ok(Side::Buy);
    }
    cursor.skip(b"\"sell\"")?;
    Ok(Side::Sell)
}

impl Item for Order {
    fn read(cursor: &mut Cursor<'_>) -> Result<Self, Unread> {
        cursor.skip(b"{\"account\":")?;
        let account = cursor.number()?;
        let bundle = bundle(cursor)?;
        cursor.skip(b",\"order\":")?;
        let id = cursor.natural();
        cursor.skip(b",\"price\":")?;
        let price = cursor.natural();
        cursor.skip(b",\"quantity\":")?;
        let quantity = cursor.number()?;
        cursor.skip(b",\"side\":")?;
        let side = side(cursor)?;
        cursor.skip(b"}")?;
        Ok(Order {
            id,
            account,
            side,
            bundle,
            price,
            quantity,
        })
    }
}
