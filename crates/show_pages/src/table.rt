//! Plain-text tables. Each column is as wide as its widest cell.

use ocpp_scalars::character_count;
use page_text::Page;
use std::alloc::{AllocError, Global};
use std::fmt::Display;

/// A table: a line of headings, and rows of cells below it. After a failed allocation it fails the
/// page that it is appended to.
#[derive(Drop)]
pub struct Table {
    alloc: Global,
    rows: Vec<Vec<String>>,
    /// Whether an allocation failed.
    is_short: bool,
}

impl Table {
    /// Returns a table with these headings and no rows.
    pub fn new(alloc: Global, headings: &[&str]) -> Table {
        let mut table = Table {
            alloc,
            rows: Vec::new(alloc),
            is_short: false,
        };
        table.begin_row();
        for heading in headings {
            table.cell(*heading);
        }
        table
    }

    /// Begins a row.
    pub fn begin_row(&mut self) {
        if self.rows.push(Vec::new(self.alloc)).is_err() {
            self.is_short = true;
        }
    }

    /// Adds a cell to the last row. A cell may have several lines, which go below each other.
    pub fn cell<D: Display + Drop>(&mut self, value: D) {
        self.made_cell(format!(in self.alloc; "{value}"));
    }

    /// Adds a cell that was made elsewhere.
    pub fn made_cell(&mut self, made: Result<String, AllocError>) {
        let (Ok(cell), Some(row)) = (made, self.rows.last_mut()) else {
            self.is_short = true;
            return;
        };
        if row.push(cell).is_err() {
            self.is_short = true;
        }
    }

    /// Appends the table, each of its lines indented by this number of spaces.
    pub fn push_to(&self, page: &mut Page, indent: usize) {
        let (Ok(widths), false) = (self.widths(), self.is_short) else {
            return page.fail();
        };
        for row in &self.rows {
            push_row(page, row, &widths, indent);
        }
    }

    /// Returns the width of each column of a plain-text table of `show`, `check --trace` or
    /// `status`, in characters.
    fn widths(&self) -> Result<Vec<usize>, AllocError> {
        let mut widths = Vec::new(self.alloc);
        for row in &self.rows {
            for (column, cell) in row.iter().enumerate() {
                let width = cell_width(cell.as_str());
                match widths.get_mut(column) {
                    Some(widest) => *widest = width.max(*widest),
                    None => widths.push(width)?,
                }
            }
        }
        Ok(widths)
    }
}

/// Returns the width of the widest line in a cell of a plain-text table of `show`, `check --trace`
/// or `status`, in characters.
fn cell_width(cell: &str) -> usize {
    let mut widest = 0;
    for line in cell.lines() {
        // An idTag may have characters outside ASCII, which are several bytes but one column.
        widest = character_count(line).max(widest);
    }
    widest
}

/// Appends a row of a plain-text table of `show`, `check --trace` or `status`: as many lines as its
/// highest cell has, and at least one.
fn push_row(page: &mut Page, row: &[String], widths: &[usize], indent: usize) {
    let mut height = 1;
    for cell in row {
        height = cell.lines().count().max(height);
    }
    for place in 0..height {
        push_line_of_row(page, row, widths, indent, place);
    }
}

/// Appends one line of a row of a plain-text table of `show`, `check --trace` or `status`, without
/// trailing spaces.
fn push_line_of_row(
    page: &mut Page,
    row: &[String],
    widths: &[usize],
    indent: usize,
    place: usize,
) {
    let mut spaces = indent;
    for (column, cell) in row.iter().enumerate() {
        let text = cell.lines().nth(place).unwrap_or("");
        let width = widths.get(column).copied().unwrap_or(0);
        if !text.is_empty() {
            push_spaces(page, spaces);
            page.push_str(text);
            spaces = 0;
        }
        let free = width.saturating_sub(character_count(text));
        spaces = spaces.saturating_add(free).saturating_add(2);
    }
    page.push('\n');
}

/// Appends the spaces before a cell of a plain-text table of `show`, `check --trace` or `status`.
fn push_spaces(page: &mut Page, count: usize) {
    for _space in 0..count {
        page.push(' ');
    }
}
