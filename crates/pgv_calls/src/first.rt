//! What is read from the first argument.

use jiff::civil::Date;
use pgv::types::{PgLTree, PgRange};
use pgv::{PgComposite, PgEnum, PgRecord, PgValueRef};
use pgv_examples::mood::Mood;
use pgv_examples::page::Page;
use pgv_fixtures::{Again, EmptyObject, SizeRange, read_again, read_shown};
use std::alloc::Global;

/// What is read from a value at the Rust type of this name.
pub fn shown(alloc: Global, name: &str, value: PgValueRef<'_>) -> Result<String, Again> {
    match name {
        "EmptyObject" => read_again::<EmptyObject>(alloc, value),
        "Option<Option<i32>>" => read_shown::<Option<Option<i32>>>(alloc, value),
        "Page" => read_again::<PgComposite<Page>>(alloc, value),
        "PgRange<i32>" => read_again::<PgRange<i32>>(alloc, value),
        "Vec<Mood>" => read_shown::<Vec<PgEnum<Mood>>>(alloc, value),
        "Vec<Page>" => read_again::<Vec<PgComposite<Page>>>(alloc, value),
        "Vec<PgLTree>" => read_again::<Vec<PgLTree>>(alloc, value),
        "Vec<SizeRange>" => read_again::<Vec<SizeRange>>(alloc, value),
        "(Vec<PgRange<Date>>, PgLTree)" => {
            read_again::<PgRecord<(Vec<PgRange<Date>>, (PgLTree,))>>(alloc, value)
        }
        _ => Ok(String::from_str(alloc, "no type of this name")?),
    }
}
