//! What is told of files, found by hand.
use pj_base::NoMemory;
use pj_rows::{Row, Section, Table, report_on};
use std::alloc::Global;
use std::test::Fail;

/// Answers with what is given, behind the value of the setting `front`; for `memory` there is no memory.
struct Echo;

impl Table for Echo {
    fn has_setting(&self, name: &str) -> bool {
        name == "front"
    }

    fn answer(&self, alloc: Global, section: &Section, row: &Row) -> Result<String, NoMemory> {
        if row.given.as_str() == "memory" {
            return Err(NoMemory);
        }
        let mut answer = String::from_str(alloc, section.setting("front").unwrap_or(""))?;
        answer.push_str(row.given.as_str())?;
        Ok(answer)
    }
}

/// Files, each with what is told of it.
static FILES: [(&str, &str); 18] = [
    ("", "f.rows: 0 rows\n"),
    ("## a\nx => x\n y =>  y \n", "f.rows: 2 rows\n"),
    (
        "## a\n# b\na => b => a => b\n",
        "f.rows:3: wanted b, got a => b => a\nf.rows: 1 rows\n",
    ),
    (
        "## a\n\nx\n  y  \n  => x\n  y\n\nz\n=>\nz\n## b\nw => v",
        "f.rows:12: wanted v, got w\nf.rows: 3 rows\n",
    ),
    (
        "## a\n@front b\\{s}\n@front c\nd => b d\n## b\n\\{} =>\n",
        "f.rows: 2 rows\n",
    ),
    (
        "## a\n\\{9}\\{t}\\{n}\\{r} \\b\\{5c}{\\{e9}\\{s} => x",
        "f.rows:2: wanted x, got \\{t}\\{t}\\{n}\\{r} \\b\\\\{7b}\u{e9}\\{s}\nf.rows: 1 rows\n",
    ),
    (
        "## a\n\\{20ac}\\{feff}\\{1} =>",
        "f.rows:2: wanted \\{}, got \u{20ac}\\{feff}\\{1}\nf.rows: 1 rows\n",
    ),
    (
        "## a\nmemory => x\ny => y\n",
        "f.rows:2: wanted x, got ! out of memory\nf.rows: 2 rows\n",
    ),
    ("x => x", "f.rows:1: stands in no section\n"),
    ("# a\n@front b", "f.rows:2: stands in no section\n"),
    ("## a\n\nx\ny\n\nz => z", "f.rows:3: a row without =>\n"),
    ("## a\nx\n## b\n", "f.rows:2: a row without =>\n"),
    ("## a\nx => x\n => x", "f.rows:3: nothing is given\n"),
    ("## a\n=>\nx\n", "f.rows:2: nothing is given\n"),
    (
        "## a\nx => x\n@front b\n",
        "f.rows:3: a setting behind a row\n",
    ),
    ("## a\nx => \\{q}\n", "f.rows:2: a bad escape\n"),
    ("## a\n@front \\{n\nx => x", "f.rows:2: a bad escape\n"),
    (
        "## a\nx => x\n## b\n@back b\n",
        "f.rows:4: no such setting\n",
    ),
];

/// Whether this is told of a file, which holds where no line of it is refused.
fn is_told(alloc: Global, text: &str, wanted: &str) -> Result<bool, NoMemory> {
    let told = report_on(alloc, "f.rows", text, &Echo)?;
    let holds = wanted.starts_with("f.rows: ");
    Ok(told.text.as_str() == wanted && told.holds == holds)
}

#[test]
fn files(rt: HostRuntime) -> Result<(), Fail> {
    for (text, wanted) in &FILES {
        if !is_told(rt.alloc(), text, wanted)? {
            return Err(Fail::new(*wanted));
        }
    }
    Ok(())
}
