//! What is printed where a width, a fill and a precision are asked for: types are padded, and nothing else is.

use crate::shown::Lines;
use jiff::Timestamp;
use pgv::types::{
    PgCiText, PgLQuery, PgLQueryParseError, PgLQueryVariant, PgLTree, PgLTreeParseError, PgRange,
};
use pgv::{PgType, PgTypeInfo};
use std::alloc::{AllocError, Global};
use std::fmt::Display;
use std::test::Fail;

/// Widths, fills of two bytes and precisions, of one value.
fn styled<T: Display>(alloc: Global, value: &T) -> Result<String, AllocError> {
    format!(in alloc;
        "{value:é>200}|{value:é^101}|{value:é<64}|{value:9}|{value:.1}|{value:é>150.5}"
    )
}

/// Whether a type is printed as its display name, which is a text, is printed by std.
fn is_padded_as(alloc: Global, info: &PgTypeInfo, name: &str) -> Result<bool, AllocError> {
    Ok(styled(alloc, info)?.as_str() == styled(alloc, &name)?.as_str())
}

#[test]
fn types_are_padded(rt: HostRuntime) -> Result<(), Fail> {
    let types = [
        (PgTypeInfo(PgType::Int4), "INT4"),
        (PgTypeInfo(PgType::VarcharArray), "VARCHAR[]"),
        (PgTypeInfo(PgType::CharArray), "\"CHAR\"[]"),
        (PgTypeInfo::with_name("né"), "né"),
        (PgTypeInfo::array_of("é"), "é[]"),
        (PgTypeInfo::array_of("long_name"), "long_name[]"),
    ];
    for (info, name) in &types {
        assert!(rt; is_padded_as(rt.alloc(), info, *name)?, "{name}");
    }
    Ok(())
}

/// What is printed of a value, if it is the same whatever is asked for.
fn push_unpadded<T: Display>(
    alloc: Global,
    lines: &mut Lines,
    value: &T,
) -> Result<(), AllocError> {
    let plain = format!(in alloc; "{value}")?;
    let wanted = format!(in alloc; "{plain}|{plain}|{plain}|{plain}|{plain}|{plain}")?;
    if styled(alloc, value)?.as_str() == wanted.as_str() {
        lines.push(Ok(plain));
    }
    Ok(())
}

/// A name, a text, and ranges.
fn push_plain(alloc: Global, lines: &mut Lines) -> Result<(), AllocError> {
    push_unpadded(alloc, lines, &PgTypeInfo::array_of("mood").name())?;
    push_unpadded(alloc, lines, &PgCiText::from_str(alloc, "Text")?)?;
    push_unpadded(alloc, lines, &PgRange::from(1..10))?;
    push_unpadded(alloc, lines, &PgRange::<i32>::empty())?;
    push_unpadded(alloc, lines, &PgRange::from(Timestamp::UNIX_EPOCH..))
}

/// A tree and its label.
fn push_tree(alloc: Global, lines: &mut Lines) -> Result<(), PgLTreeParseError> {
    let tree = PgLTree::from_str(alloc, "Top.Science")?;
    push_unpadded(alloc, lines, &tree)?;
    for label in tree {
        push_unpadded(alloc, lines, &label)?;
    }
    Ok(())
}

/// A query and its levels, a variant and its flags.
fn push_query(alloc: Global, lines: &mut Lines) -> Result<(), PgLQueryParseError> {
    let query = PgLQuery::from_str(alloc, "*{2,3}.!a|b")?;
    push_unpadded(alloc, lines, &query)?;
    for level in query {
        push_unpadded(alloc, lines, &level)?;
    }
    let variant = PgLQueryVariant::from_str(alloc, "x%*")?;
    push_unpadded(alloc, lines, &variant)?;
    Ok(push_unpadded(alloc, lines, &variant.modifiers())?)
}

#[test]
fn nothing_else_is_padded(rt: HostRuntime) -> Result<(), Fail> {
    let mut lines = Lines::new(rt.alloc());
    push_plain(rt.alloc(), &mut lines)?;
    let tree = push_tree(rt.alloc(), &mut lines);
    let query = push_query(rt.alloc(), &mut lines);
    let text = lines.text()?;
    assert!(rt; tree.is_ok() && query.is_ok());
    assert_eq!(rt;
        text.as_str(),
        "mood[]\nText\n[1,10)\nempty\n[1970-01-01T00:00:00Z,)\n\
Top.Science\nTop\nScience\n*{2,3}.!a|b\n*{2,3}\n!a|b\nx*%\n*%\n"
    );
    Ok(())
}
