//! Laws of rows and columns: each is the contract of a function that does nothing.

ghost use Rattle.pgv_row.specs.DataRow.{DataRowIsRead};
ghost use Rattle.pgv_row.specs.Description.{DescriptionIsRead};
ghost use Rattle.pgv_row.specs.OnePass.{ReadsRows};

use crate::tuple::FromRow;

/// The body of a DataRow is read as a row exactly where it is that row: the number of columns, a frame for each and
/// nothing else.
#[tactic(auto, using(crate::proofs::DataRows::data_row_is_read))]
pub fn data_row_is_read()
    ensures { DataRowIsRead }
{}

/// The body of a RowDescription is read as columns exactly where it is their number, for each its name and its numbers,
/// and nothing else.
#[tactic(auto, using(crate::proofs::Descriptions::description_is_read))]
pub fn description_is_read()
    ensures { DescriptionIsRead }
{}

/// [`PgColumns::read_row`](crate::PgColumns::read_row) reads only a DataRow. Where the columns fit, it reads from it
/// what [`PgRow::as_tuple`](crate::PgRow::as_tuple) reads from its row, and refuses the same column.
#[tactic(auto, using(crate::proofs::OnePass::reads_rows))]
pub fn one_pass_reads_rows<T: FromRow>()
    ensures { ReadsRows T.fits T.parse T.refused T.in_front T.refused_in_front }
{}
