//! Rows of calls on the arguments of a statement.

use crate::first::shown;
use crate::own::{Bounds, Listed, Stop};
use jiff::civil::{Date, date};
use pgv::types::{PgLTree, PgRange};
use pgv::{
    CodecError, Encode, Oid, PgArguments, PgComposite, PgEnum, PgPlain, PgRecord, PgType,
    PgTypeInfo, PgValueFormat, PgValueRef,
};
use pgv_examples::household::Household;
use pgv_examples::mood::Mood;
use pgv_examples::page::Page;
use pgv_examples::percent::Percent;
use pgv_fixtures::{
    Again, Called, EmptyObject, Huge, MoodText, Size, same, size_ranges, told, type_of,
};
use std::alloc::{AllocError, Global};

/// One mood, `ok`.
fn moods(alloc: Global) -> Result<Vec<PgEnum<Mood>>, AllocError> {
    Ok(Vec::from_array(alloc, [PgEnum(Mood::Fine)])?)
}

/// One mood as a text, or none.
fn mood_texts(alloc: Global, some: bool) -> Result<Vec<MoodText>, AllocError> {
    let mut texts = Vec::new(alloc);
    if some {
        texts.push(MoodText { mood: Mood::Fine })?;
    }
    Ok(texts)
}

/// The tree `a.b` in a list.
fn trees(alloc: Global) -> Result<Vec<PgLTree>, CodecError> {
    let tree = PgLTree::from_str(alloc, "a.b")?;
    Ok(Vec::from_array(alloc, [tree])?)
}

/// A tree without labels in a list.
fn empty_trees(alloc: Global) -> Result<Vec<PgLTree>, AllocError> {
    Ok(Vec::from_array(alloc, [PgLTree::new(alloc)])?)
}

/// No day, and the first day of 2000.
fn days() -> [PgRange<Date>; 2] {
    [
        PgRange::empty(),
        PgRange::from(date(2000, 1, 1)..date(2000, 1, 2)),
    ]
}

/// The page of the number 1 at `a.b`.
fn page(alloc: Global) -> Result<PgComposite<Page>, CodecError> {
    let path = PgLTree::from_str(alloc, "a.b")?;
    Ok(PgComposite(Page { id: 1, path }))
}

/// That page in a list.
fn pages(alloc: Global) -> Result<Vec<PgComposite<Page>>, CodecError> {
    Ok(Vec::from_array(alloc, [page(alloc)?])?)
}

/// An empty text and null.
fn texts(alloc: Global) -> Result<Vec<Option<String>>, AllocError> {
    Ok(Vec::from_array(alloc, [Some(String::new(alloc)), None])?)
}

/// Adds the value of this name, of std's types.
fn add_plain(alloc: Global, arguments: &mut PgArguments, name: &str) -> Result<(), CodecError> {
    match name {
        "1" => arguments.add(1),
        "7" => arguments.add(7),
        "empty range" => arguments.add(PgRange::<i32>::empty()),
        "range 1 to 10" => arguments.add(PgRange::from(1..10)),
        "none" => arguments.add(None::<i32>),
        "some none" => arguments.add(Some(None::<i32>)),
        "no text" => arguments.add(String::new(alloc)),
        "list 1 2" => arguments.add([1, 2].to_vec(alloc)?),
        "no numbers" => arguments.add(Vec::<i32>::new(alloc)),
        "texts '' and null" => arguments.add(texts(alloc)?),
        _ => Err(CodecError::Caller(0)),
    }
}

/// Adds the value of this name, of types that have holes.
fn add_with_holes(
    alloc: Global,
    arguments: &mut PgArguments,
    name: &str,
) -> Result<(), CodecError> {
    match name {
        "moods" => arguments.add(moods(alloc)?),
        "no moods" => arguments.add(Vec::<PgEnum<Mood>>::new(alloc)),
        "mood texts" => arguments.add(mood_texts(alloc, true)?),
        "no mood texts" => arguments.add(mood_texts(alloc, false)?),
        "trees" => arguments.add(trees(alloc)?),
        "no trees" => arguments.add(Vec::<PgLTree>::new(alloc)),
        "empty trees" => arguments.add(empty_trees(alloc)?),
        "page" => arguments.add(page(alloc)?),
        "pages" => arguments.add(pages(alloc)?),
        "ranges" => arguments.add(size_ranges(alloc)?),
        "sizes 7 0" => arguments.add([Size { alloc, number: 7 }, Size { alloc, number: 0 }]),
        "pair" => arguments.add(PgRecord((1, (PgEnum(Mood::Fine),)))),
        "stay" => {
            let tree = PgLTree::from_str(alloc, "a.b")?;
            arguments.add(PgRecord((days(), (tree,))))
        }
        "household" => arguments.add(PgComposite(Household {
            number: 1,
            moods: moods(alloc)?,
        })),
        _ => add_plain(alloc, arguments, name),
    }
}

/// Adds the value of this name.
fn add(alloc: Global, arguments: &mut PgArguments, name: &str) -> Result<(), CodecError> {
    match name {
        "mood" => arguments.add(PgEnum(Mood::Fine)),
        "mood text" => arguments.add(MoodText { mood: Mood::Fine }),
        "object" => arguments.add(EmptyObject { alloc }),
        "percent 101" => arguments.add(PgPlain(Percent { number: 101 })),
        "size 0" => arguments.add(Size { alloc, number: 0 }),
        "huge" => arguments.add(Huge),
        "size 3 by reference" => arguments.add_by_ref(&Size { alloc, number: 3 }),
        "size 0 by reference" => arguments.add_by_ref(&Size { alloc, number: 0 }),
        _ => add_with_holes(alloc, arguments, name),
    }
}

/// A record of an object and a value after it.
fn behind<T>(alloc: Global, second: T) -> PgRecord<(EmptyObject, (T,))> {
    PgRecord((EmptyObject { alloc }, (second,)))
}

/// One value in a list.
fn list_of<T: Drop>(alloc: Global, value: T) -> Result<Vec<T>, CodecError> {
    let mut list = Vec::new(alloc);
    match list.push(value) {
        Ok(()) => Ok(list),
        Err(_) => Err(CodecError::Memory),
    }
}

/// Adds a range that begins with a value.
fn add_range<T: Encode + Drop>(arguments: &mut PgArguments, start: T) -> Result<(), CodecError> {
    arguments.add(Bounds {
        range: PgRange::from(start..),
    })
}

/// Adds a range of a value that is refused with the number of its depth: itself at 1, in a record at 2, in a list in
/// that at 3, in a record of that at 4.
fn add_stop(alloc: Global, arguments: &mut PgArguments, depth: u32) -> Result<(), CodecError> {
    let stop = Stop { alloc, depth };
    match depth {
        1 => add_range(arguments, stop),
        2 => add_range(arguments, behind(alloc, stop)),
        3 => add_range(arguments, behind(alloc, list_of(alloc, stop)?)),
        _ => {
            let listed = Listed {
                pair: behind(alloc, stop),
            };
            add_range(arguments, behind(alloc, list_of(alloc, listed)?))
        }
    }
}

/// A parameter of `jsonb` for each argument.
fn all_jsonb(alloc: Global, arguments: &PgArguments) -> Result<Vec<PgTypeInfo>, AllocError> {
    let mut types = Vec::new(alloc);
    for _ in arguments.types() {
        types.push(PgTypeInfo(PgType::Jsonb))?;
    }
    Ok(types)
}

/// The OID 0 for each hole.
fn zeros(alloc: Global, arguments: &PgArguments) -> Result<Vec<Oid>, AllocError> {
    let mut oids = Vec::new(alloc);
    for _ in arguments.hole_types() {
        oids.push(Oid(0))?;
    }
    Ok(oids)
}

/// Fills the slots for parameters of `jsonb`.
fn fill_slots(alloc: Global, arguments: &mut PgArguments) -> Result<(), AllocError> {
    let types = all_jsonb(alloc, arguments)?;
    let oids = zeros(alloc, arguments)?;
    arguments
        .apply_patches(types.as_slice(), oids.as_slice())
        .or(Err(AllocError))
}

/// A copy whose bytes show where its slots are: they are filled.
fn with_slots_filled(alloc: Global, arguments: &PgArguments) -> Result<PgArguments, AllocError> {
    let mut copy = arguments.clone()?;
    fill_slots(alloc, &mut copy)?;
    Ok(copy)
}

/// Whether types have the same names.
fn same_names(
    alloc: Global,
    now: &[PgTypeInfo],
    before: &[PgTypeInfo],
) -> Result<bool, AllocError> {
    let now = names(alloc, now)?;
    let before = names(alloc, before)?;
    Ok(now.as_str() == before.as_str())
}

/// Whether arguments have the same bytes where their slots are filled.
fn same_slots(alloc: Global, now: &PgArguments, before: &PgArguments) -> Result<bool, AllocError> {
    let now = with_slots_filled(alloc, now)?;
    let before = with_slots_filled(alloc, before)?;
    Ok(now.buffer().as_slice() == before.buffer().as_slice())
}

/// Whether arguments are as they were: with the same bytes, types, holes and slots.
fn unmoved(alloc: Global, now: &PgArguments, before: &PgArguments) -> Result<bool, AllocError> {
    if now.buffer().as_slice() != before.buffer().as_slice() || !same_slots(alloc, now, before)? {
        return Ok(false);
    }
    if !same_names(alloc, now.types(), before.types())? {
        return Ok(false);
    }
    same_names(alloc, now.hole_types(), before.hole_types())
}

/// Whether a call on arguments, which a refusal has to leave as they were, answers what is expected.
fn told_of(
    alloc: Global,
    answer: Result<(), CodecError>,
    now: &PgArguments,
    before: &PgArguments,
    wanted: &str,
) -> Result<bool, Again> {
    let unmoved = answer.is_ok() || unmoved(alloc, now, before)?;
    told(answer, unmoved, wanted)
}

/// Whether an addition is answered so.
fn added(
    alloc: Global,
    arguments: &mut PgArguments,
    name: &str,
    wanted: &str,
) -> Result<bool, Again> {
    let before = arguments.clone()?;
    let answer = add(alloc, arguments, name);
    told_of(alloc, answer, arguments, &before, wanted)
}

/// The number of a caller's refusal, as in `C38(2)`.
fn caller_number(wanted: &str) -> Option<u32> {
    wanted
        .strip_prefix("C38(")?
        .strip_suffix(')')?
        .parse::<u32>()
        .ok()
}

/// Whether a value is refused at a depth with the number that is expected, and the arguments are as they were.
fn stopped(
    alloc: Global,
    arguments: &mut PgArguments,
    depth: &str,
    wanted: &str,
) -> Result<bool, Again> {
    let depth = depth.parse::<u32>().unwrap_or(0);
    let before = arguments.clone()?;
    let answer = add_stop(alloc, arguments, depth);
    let unmoved = unmoved(alloc, arguments, &before)?;
    match answer {
        Err(CodecError::Caller(found)) => Ok(unmoved && caller_number(wanted) == Some(found)),
        Err(CodecError::Memory) if unmoved => Err(Again),
        _ => Ok(false),
    }
}

/// Whether of the sizes 2, 0 and 4 the second alone is refused. Where memory was refused within the list, none is there
/// any more.
fn added_each(alloc: Global, arguments: &mut PgArguments) -> Result<bool, Again> {
    let sizes = [
        Size { alloc, number: 2 },
        Size { alloc, number: 0 },
        Size { alloc, number: 4 },
    ];
    let Ok(answers) = arguments.add_each(alloc, &sizes) else {
        return Err(Again);
    };
    let mut accepted = 0usize;
    let mut codes = [0u8; 3];
    for (place, answer) in answers.into_iter().enumerate() {
        match (answer, codes.get_mut(place)) {
            (Err(error), Some(code)) => *code = error.code(),
            _ => accepted = accepted.saturating_add(1),
        }
    }
    if codes.contains(&1) && arguments.len() == accepted {
        *arguments = PgArguments::new(alloc);
        return Err(Again);
    }
    Ok(matches!(codes, [0, 38, 0]))
}

fn push_type(alloc: Global, types: &mut Vec<PgTypeInfo>, name: &str) -> Result<(), AllocError> {
    let info = type_of(alloc, name.trim_ascii())?;
    Ok(types.push(info)?)
}

/// The types of these names.
fn types_of(alloc: Global, names: &str) -> Result<Vec<PgTypeInfo>, AllocError> {
    let mut types = Vec::new(alloc);
    for name in names.split(',') {
        push_type(alloc, &mut types, name)?;
    }
    Ok(types)
}

/// These OIDs.
fn oids_of(alloc: Global, numbers: &str) -> Result<Vec<Oid>, AllocError> {
    let mut oids = Vec::new(alloc);
    for number in numbers.split_ascii_whitespace() {
        oids.push(Oid(number.parse::<u32>().unwrap_or(0)))?;
    }
    Ok(oids)
}

/// Whether a filling with types and OIDs, as in `json, jsonb / 16500 16501`, is answered so. It takes no memory.
fn filled(
    alloc: Global,
    arguments: &mut PgArguments,
    given: &str,
    wanted: &str,
) -> Result<bool, Again> {
    let (names, numbers) = given.split_once(" /").unwrap_or((given, ""));
    let types = types_of(alloc, names)?;
    let oids = oids_of(alloc, numbers)?;
    let answer = arguments.apply_patches(types.as_slice(), oids.as_slice());
    told(answer, true, wanted)
}

/// Whether the first argument is read so, as in `Page | page`.
fn first(
    alloc: Global,
    arguments: &PgArguments,
    reading: &str,
    wanted: &str,
) -> Result<bool, Again> {
    let (name, type_name) = reading.split_once(" | ").unwrap_or((reading, ""));
    let mut bytes = arguments.buffer().as_slice();
    let info = type_of(alloc, type_name)?;
    match PgValueRef::get(&mut bytes, PgValueFormat::Binary, info) {
        Ok(value) => Ok(shown(alloc, name, value)?.as_str() == wanted),
        Err(_) => Ok(false),
    }
}

/// The part of the frame in front, in hex, or `null`.
fn part(alloc: Global, rest: &mut &[u8]) -> Result<String, CodecError> {
    let text = PgTypeInfo::with_oid(Oid(25));
    let value = PgValueRef::get(rest, PgValueFormat::Binary, text)?;
    match value.as_bytes() {
        Ok(bytes) => Ok(hex::encode(alloc, bytes)?),
        Err(_) => Ok(String::from_str(alloc, "null")?),
    }
}

/// All parts, read in turn, with a space between.
fn frames(alloc: Global, arguments: &PgArguments) -> Result<String, CodecError> {
    let mut rest = arguments.buffer().as_slice();
    let mut text = String::new(alloc);
    for place in 0..arguments.len() {
        if place > 0 {
            text.push(' ')?;
        }
        text.push_str(part(alloc, &mut rest)?.as_str())?;
    }
    if !rest.is_empty() {
        text.push_str(" and a rest")?;
    }
    Ok(text)
}

/// The start of a query with the placeholder of the last argument. A refusal has to leave the text as it was.
fn placeholder(alloc: Global, arguments: &PgArguments) -> Result<String, CodecError> {
    let mut query = String::from_str(alloc, "select ")?;
    match arguments.format_placeholder(&mut query) {
        Ok(()) => Ok(query),
        Err(error) if query.as_str() == "select " => Err(error),
        Err(_) => Err(CodecError::Caller(0)),
    }
}

/// Appends the name of a type, with a space in front but for the first.
fn push_name(names: &mut String, info: &PgTypeInfo) -> Result<(), AllocError> {
    if !names.is_empty() {
        names.push(' ')?;
    }
    let name = info.name();
    names.push_str(name.text())?;
    names.push_str(name.suffix())
}

/// The names of types, with a space between.
pub fn names(alloc: Global, types: &[PgTypeInfo]) -> Result<String, AllocError> {
    let mut names = String::new(alloc);
    for info in types {
        push_name(&mut names, info)?;
    }
    Ok(names)
}

/// What is asked of arguments.
fn asked(alloc: Global, arguments: &PgArguments, call: &str) -> Result<String, CodecError> {
    match call {
        "bytes" => Ok(hex::encode(alloc, arguments.buffer().as_slice())?),
        "holes" => Ok(names(alloc, arguments.hole_types())?),
        "types" => Ok(names(alloc, arguments.types())?),
        "len" => Ok(format!(in alloc; "{}", arguments.len())?),
        "placeholder" => placeholder(alloc, arguments),
        "frames" => frames(alloc, arguments),
        _ => Err(CodecError::Caller(0)),
    }
}

/// Whether a call that makes room or a copy, or one that asks, is answered so.
fn changed_or_asked(
    alloc: Global,
    arguments: &mut PgArguments,
    call: &str,
    wanted: &str,
) -> Result<bool, Again> {
    match call {
        "reserve" => {
            let before = arguments.clone()?;
            let answer = arguments.reserve(3, 100);
            told_of(alloc, answer, arguments, &before, wanted)
        }
        "copy" => {
            *arguments = arguments.clone()?;
            Ok(wanted == "ok")
        }
        "each size 2 0 4" => added_each(alloc, arguments),
        _ => same(asked(alloc, arguments, call), wanted),
    }
}

/// Arguments that rows change.
#[derive(Drop)]
pub struct Arguments(pub PgArguments);

impl Called for Arguments {
    fn holds(&mut self, alloc: Global, call: &str, wanted: &str) -> Result<bool, Again> {
        let arguments = &mut self.0;
        if let Some(name) = call.strip_prefix("add ") {
            return added(alloc, arguments, name, wanted);
        }
        if let Some(given) = call.strip_prefix("fill ") {
            return filled(alloc, arguments, given, wanted);
        }
        if let Some(reading) = call.strip_prefix("first ") {
            return first(alloc, arguments, reading, wanted);
        }
        if let Some(depth) = call.strip_prefix("stop ") {
            return stopped(alloc, arguments, depth, wanted);
        }
        changed_or_asked(alloc, arguments, call, wanted)
    }
}
