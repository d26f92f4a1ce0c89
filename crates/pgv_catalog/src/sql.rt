//! The statements whose rows a catalogue is made of. They have no parameters, and their results are asked for in
//! binary.

/// The types that were made on the server (their OIDs begin at 16384): OID, schema, name, whether the name alone finds
/// the type, what kind of type it is (`a` an array, else `typtype`), and the OID of its part: the base of a domain, the
/// subtype of a range, the element of an array, else 0 (PostgreSQL, "pg_type", "pg_range").
/// [`PgTypeRow::read`](crate::PgTypeRow::read) reads a row of it.
pub const TYPES: &str = "select t.oid, n.nspname, t.typname, pg_type_is_visible(t.oid), \
     case when t.typtype = 'b' and t.typcategory = 'A' then 'a' else t.typtype end, \
     case t.typtype when 'd' then t.typbasetype when 'r' then r.rngsubtype else t.typelem end \
     from pg_type t join pg_namespace n on n.oid = t.typnamespace left join pg_range r on r.rngtypid = t.oid \
     where t.oid >= 16384 order by t.oid";

/// The fields of composite types, those of one type in their order: OID of the type, name and type of the field
/// (PostgreSQL, "pg_attribute"). [`PgFieldRow::read`](crate::PgFieldRow::read) reads a row of it.
pub const FIELDS: &str =
    "select t.oid, a.attname, a.atttypid from pg_attribute a join pg_type t on t.typrelid = a.attrelid \
     where t.typtype = 'c' and t.oid >= 16384 and a.attnum > 0 and not a.attisdropped order by t.oid, a.attnum";

/// The labels of enumerations, those of one type in their order: OID of the type, and label (PostgreSQL, "pg_enum").
/// [`PgLabelRow::read`](crate::PgLabelRow::read) reads a row of it.
pub const LABELS: &str =
    "select enumtypid, enumlabel from pg_enum order by enumtypid, enumsortorder";
