//! A table of text: columns of equally wide cells.

ghost use Rattle.std.specs.Prelude.{◌≡◌, ◌++◌, replicate, All, OnOk};
ghost use Rattle.roam_metrics.specs.Tables as spec;

use std::alloc::AllocError;

/// On which side of its column a cell stands.
#[derive(Clone, Copy, PartialEq, Eq)]
pub enum CellSide {
    Left,
    Right,
}

/// A column of a table: how many octets wide it is, and where its cells stand.
#[derive(Clone, Copy, PartialEq, Eq)]
pub struct Column {
    pub side: CellSide,
    pub width: usize,
}

/// The text of a row in one of its columns, and that column.
#[derive(Drop)]
pub struct Cell {
    pub text: String,
    pub column: Column,
}

/// A row: its cells, in the order of the columns.
#[derive(Drop)]
pub struct Row {
    pub cells: Vec<Cell>,
}

impl Cell {
    /// Makes a cell of a text that isn't placed yet.
    pub(crate) fn new(text: String) -> Cell {
        let column = Column {
            side: CellSide::Left,
            width: 0,
        };
        Cell { text, column }
    }
}

/// Adds octets.
fn push(out: &mut Vec<u8>, octets: &[u8]) -> Result<(), AllocError>
    ensures { OnOk result (out.new.items ≡ out.old.items ++ octets.now) }
{
    out.extend_from_slice(octets)
}

/// Adds so many blanks.
fn push_blanks(out: &mut Vec<u8>, count: usize) -> Result<(), AllocError>
    ensures { OnOk result (out.new.items ≡ out.old.items ++ replicate count 32) }
{
    for _ in 0..count {
        push(out, b" ")?;
    }
    Ok(())
}

/// Adds a cell: two blanks, and its text with the blanks that it lacks of its column's width.
fn push_cell(out: &mut Vec<u8>, cell: &Cell) -> Result<(), AllocError>
    ensures { OnOk result (out.new.items ≡ out.old.items ++ spec.cell_text cell.now) }
{
    let text = cell.text.as_str().as_bytes();
    let blanks = cell.column.width.saturating_sub(text.len());
    push(out, b"  ")?;
    match cell.column.side {
        CellSide::Left => {
            push(out, text)?;
            push_blanks(out, blanks)
        }
        CellSide::Right => {
            push_blanks(out, blanks)?;
            push(out, text)
        }
    }
}

/// Adds cells.
fn push_cells(out: &mut Vec<u8>, cells: &[Cell]) -> Result<(), AllocError>
    ensures { OnOk result (out.new.items ≡ out.old.items ++ spec.cells_text cells.now) }
{
    for cell in cells {
        push_cell(out, cell)?;
    }
    Ok(())
}

/// Adds a row: its cells, and the end of the line.
fn push_row(out: &mut Vec<u8>, row: &Row) -> Result<(), AllocError>
    ensures { OnOk result (out.new.items ≡ out.old.items ++ spec.row_text row.now) }
{
    push_cells(out, row.cells.as_slice())?;
    push(out, b"\n")
}

/// Returns how wide the cell of this place is of a row.
fn cell_width(row: &Row, at: usize) -> usize
    ensures { result ≡ spec.cell_width at row.now }
{
    match row.cells.get(at) {
        Some(cell) => cell.text.as_str().len(),
        None => 0,
    }
}

/// Returns how wide the column of this place is to be, so that each row's cell there fits.
#[tactic(auto, using(crate::proofs::FitLemmas::fits_more))]
fn width_of(rows: &[Row], at: usize) -> usize
    ensures { All (spec.Fits at result) rows.now }
{
    let mut width = 0;
    for row in rows {
        width = cell_width(row, at).max(width);
    }
    width
}

/// Puts each row's cell of a place into this column.
fn place_all(rows: &mut [Row], at: usize, column: Column) {
    for row in rows.iter_mut() {
        if let Some(cell) = row.cells.get_mut(at) {
            cell.column = column;
        }
    }
}

/// Adds a table of so many columns, of which so many stand left and the others right. Each is as wide as its widest
/// cell.
pub(crate) fn push_table(
    out: &mut Vec<u8>,
    rows: &mut [Row],
    columns: usize,
    left: usize,
) -> Result<(), AllocError> {
    for at in 0..columns {
        let side = if at < left {
            CellSide::Left
        } else {
            CellSide::Right
        };
        let width = width_of(rows, at);
        place_all(rows, at, Column { side, width });
    }
    for row in rows.iter() {
        push_row(out, row)?;
    }
    Ok(())
}
