//! Files of rows, each of which says what is given and what is wanted of it, and the running of tables that answer them.
//!
//! - `## ..` heads a section, in which rows stand; `# ..`, or `#` alone, is a comment.
//! - `@name value` is a setting of the section. It stands under the heading, before the rows.
//! - `given => wanted` is a row of one line; the last ` => ` parts it, and spaces around both do not count.
//! - A row of several lines has those of what is given, and then one that begins with `=>`, which is, with those below it up
//!   to an empty line, what is wanted. Spaces at the end of a line do not count.
//! - `\{n}`, `\{t}`, `\{r}`, `\{s}` (a space), `\{}` (nothing) and `\{HEX}` (a character by its number) are escapes, and every
//!   other backslash is itself.
//! - What is wanted of a refusal begins with `! `.
#![tactic(auto)]

mod escapes;
mod fault;
mod file;
mod pieces;
mod reader;
mod report;
mod run;
mod table;

pub use escapes::{escape, unescape};
pub use fault::{LineFault, RowsFault};
pub use file::{Row, Section, Setting};
pub use pieces::{put, put_between};
pub use reader::read_rows;
pub use report::{Report, report_on};
pub use run::Run;
pub use table::Table;
