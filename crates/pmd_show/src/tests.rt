//! What is shown of rulesets and of files in memory, and why others are not shown.
use crate::fault::Fault;
use crate::rules::show_rules;
use crate::tree::show_file;
use pj_base::{Bytes, Names, NoMemory, Numbers, Text};
use pj_outside::{Files, MemTree};
use std::alloc::Global;
use std::test::Fail;

/// A path and the text of its file. In the text, `~` stands for the class of XPath rules, and a character 0 for a byte that is not UTF-8.
type File = (&'static str, &'static str);

/// The class of XPath rules.
const CLASS: &str = " class=\"net.sourceforge.pmd.lang.rule.xpath.XPathRule\"";

/// The bytes of a file of this text.
fn bytes_of(alloc: Global, text: &str) -> Result<Bytes, NoMemory> {
    let text = text.replace(alloc, '~', CLASS)?;
    let mut bytes = Vec::new(alloc);
    for byte in text.as_bytes() {
        bytes.push(if *byte == 0 { 255 } else { *byte })?;
    }
    Ok(Bytes::from_vec(bytes))
}

/// Puts a file.
fn put_file(alloc: Global, files: &mut Files, path: &str, text: &str) -> Result<(), NoMemory> {
    let bytes = bytes_of(alloc, text)?;
    files.push((Text::from_str(alloc, path)?, bytes))
}

/// A tree of these files.
fn tree_of(alloc: Global, all: &[File]) -> Result<MemTree, NoMemory> {
    let mut files = Files::new(alloc);
    for (path, text) in all {
        put_file(alloc, &mut files, path, text)?;
    }
    Ok(MemTree::new(alloc, files, Numbers::new(alloc)))
}

/// What was put out, and behind it why not all was shown.
fn told(alloc: Global, out: &[u8], ended: &Result<(), Fault>) -> Result<String, NoMemory> {
    let mut text = String::from_str(alloc, str::from_utf8(out).unwrap_or("no text"))?;
    if let Err(fault) = ended {
        write!(text, "{fault}")?;
    }
    Ok(text)
}

/// One path.
fn names_of(alloc: Global, path: &str) -> Result<Names, NoMemory> {
    let mut names = Names::new(alloc);
    names.push(Text::from_str(alloc, path)?)?;
    Ok(names)
}

/// What is shown of the ruleset of a path.
fn rules_told(alloc: Global, files: &[File], path: &str) -> Result<String, NoMemory> {
    let mut tree = tree_of(alloc, files)?;
    let paths = names_of(alloc, path)?;
    let mut out: Vec<u8> = Vec::new(alloc);
    let ended = show_rules(alloc, &mut tree, &mut out, &paths);
    told(alloc, out.as_slice(), &ended)
}

/// What is shown of a Java file.
fn file_told(
    alloc: Global,
    files: &[File],
    path: &str,
    with_attributes: bool,
) -> Result<String, NoMemory> {
    let mut tree = tree_of(alloc, files)?;
    let mut out: Vec<u8> = Vec::new(alloc);
    let ended = show_file(alloc, &mut tree, &mut out, path, with_attributes);
    told(alloc, out.as_slice(), &ended)
}

/// Files, of which the first is shown, and what is told.
type Shown = (&'static [File], &'static str);

/// Rulesets that are shown.
static RULES: [Shown; 4] = [
    (&[("r.xml", "<ruleset/>")], ""),
    (
        &[(
            "r.xml",
            "<ruleset><rule name=\"N\" message=\"m\"~><properties><property name=\"xpath\" value=\"//A\"/></properties></rule></ruleset>",
        )],
        "N (priority 5): m\n    //A\n",
    ),
    // lines of blanks are left out, and what cannot be used stands behind the rules
    (
        &[(
            "r.xml",
            "<ruleset><rule name=\"J\" class=\"x.J\"/><rule name=\"N\" message=\"m\"~><priority>2</priority><properties><property name=\"p\" type=\"List[String]\" value=\"x,y\"/><property name=\"xpath\"><value>\n//A\n  \n  [@B = $p]\n</value></property></properties></rule></ruleset>",
        )],
        "N (priority 2): m\n    //A\n      [@B = $p]\n  p = x,y\nJ: not used: not an XPath rule\n",
    ),
    (
        &[
            (
                "top.xml",
                "<ruleset><rule ref=\"r.xml/N\" message=\"other\"/><rule ref=\"category/x.xml\"/></ruleset>",
            ),
            (
                "r.xml",
                "<ruleset><rule name=\"N\" message=\"m\"~><properties><property name=\"xpath\" value=\"//A\"/></properties></rule></ruleset>",
            ),
        ],
        "N (priority 5): other\n    //A\ncategory/x.xml: not used: rule is not available\n",
    ),
];

/// Expressions with a fault: the mark stands under its place.
static EXPRESSIONS: [Shown; 6] = [
    (
        &[(
            "r.xml",
            "<ruleset><rule name=\"N\"~><properties><property name=\"xpath\" value=\"//A[@B = ]\"/></properties></rule></ruleset>",
        )],
        "r.xml: rule N: invalid expression: what stands at offset 9 is not expected there\n    //A[@B = ]\n             ^",
    ),
    // in the second line, behind a tab
    (
        &[(
            "r.xml",
            "<ruleset><rule name=\"N\"~><properties><property name=\"xpath\"><value>//A\n\t[@B = ]</value></property></properties></rule></ruleset>",
        )],
        "r.xml: rule N: invalid expression: what stands at offset 11 is not expected there\n    \t[@B = ]\n    \t      ^",
    ),
    // offsets are in bytes, and marks in characters
    (
        &[(
            "r.xml",
            "<ruleset><rule name=\"N\"~><properties><property name=\"xpath\" value=\"'\u{e9}' = ]\"/></properties></rule></ruleset>",
        )],
        "r.xml: rule N: invalid expression: what stands at offset 7 is not expected there\n    '\u{e9}' = ]\n          ^",
    ),
    (
        &[(
            "r.xml",
            "<ruleset><rule name=\"N\"~><properties><property name=\"xpath\" value=\"//A\"/><property name=\"violationSuppressXPath\" value=\"//B[\"/></properties></rule></ruleset>",
        )],
        "r.xml: rule N: invalid expression: what stands at offset 4 is not expected there\n    //B[\n        ^",
    ),
    // what a reference writes, beside a rule of the same name without a fault
    (
        &[
            (
                "top.xml",
                "<ruleset><rule name=\"N\"~><properties><property name=\"xpath\" value=\"//A\"/></properties></rule><rule ref=\"r.xml/N\"><properties><property name=\"xpath\" value=\"//B[\"/></properties></rule></ruleset>",
            ),
            (
                "r.xml",
                "<ruleset><rule name=\"N\"~><properties><property name=\"xpath\" value=\"//C\"/></properties></rule></ruleset>",
            ),
        ],
        "top.xml: rule N: invalid expression: what stands at offset 4 is not expected there\n    //B[\n        ^",
    ),
    // a fault without a place
    (
        &[(
            "r.xml",
            "<ruleset><rule name=\"N\"~><properties><property name=\"xpath\" value=\"//A[$x]\"/></properties></rule></ruleset>",
        )],
        "r.xml: rule N: invalid expression: no variable $x is bound",
    ),
];

/// Other faults of rulesets.
static FAULTS: [Shown; 11] = [
    (
        &[("r.xml", "<ruleset>\n<rule</ruleset>")],
        "r.xml: invalid markup, or the root is not `ruleset`, at 2:6\n    <rule</ruleset>\n         ^",
    ),
    (
        &[("r.xml", "<ruleset>")],
        "r.xml: invalid markup, or the root is not `ruleset`, at 1:10\n    <ruleset>\n             ^",
    ),
    (
        &[("r.xml", "<ruleset/>\u{0}")],
        "r.xml: invalid markup, or the root is not `ruleset`, at byte 10",
    ),
    (
        &[("r.xml", "<ruleset>\n  <rule class=\"x.J\"/></ruleset>")],
        "r.xml: a rule without a name, at 2:3\n      <rule class=\"x.J\"/></ruleset>\n      ^",
    ),
    (
        &[("r.xml", "<ruleset><rule name=\"N\"~/></ruleset>")],
        "r.xml: rule N has no property `xpath`",
    ),
    (
        &[(
            "r.xml",
            "<ruleset><rule name=\"N\"~><priority>6</priority></rule></ruleset>",
        )],
        "r.xml: rule N: a priority is 1 to 5",
    ),
    (
        &[(
            "r.xml",
            "<ruleset><rule name=\"N\"~><properties><property name=\"p\" value=\"x\"/></properties></rule></ruleset>",
        )],
        "r.xml: rule N: invalid property",
    ),
    (
        &[("r.xml", "<ruleset><rule ref=\"s.xml\"/></ruleset>")],
        "r.xml: reference s.xml: no such file or rule",
    ),
    (
        &[("r.xml", "<ruleset><rule ref=\"r.xml\"/></ruleset>")],
        "r.xml: reference r.xml: the file refers to itself",
    ),
    (
        &[(
            "r.xml",
            "<ruleset><rule name=\"J\" class=\"x.J\"/><rule name=\"J\" class=\"x.J\"/></ruleset>",
        )],
        "r.xml: two rules of the name J",
    ),
    (
        &[(
            "r.xml",
            "<ruleset><exclude-pattern>(</exclude-pattern></ruleset>",
        )],
        "r.xml: (: invalid regular expression",
    ),
];

/// Fails with what a row wants where this is not told of its first file.
fn expect_rules(alloc: Global, row: &'static Shown) -> Result<(), Fail> {
    let (files, wanted) = row;
    let path = match files.first() {
        Some((path, _)) => *path,
        None => "",
    };
    let found = rules_told(alloc, files, path)?;
    if found.as_str() == *wanted {
        Ok(())
    } else {
        Err(Fail::new(*wanted))
    }
}

#[test]
fn rules_are_shown(rt: HostRuntime) -> Result<(), Fail> {
    for row in &RULES {
        expect_rules(rt.alloc(), row)?;
    }
    Ok(())
}

#[test]
fn marks_stand_under_faults(rt: HostRuntime) -> Result<(), Fail> {
    for row in &EXPRESSIONS {
        expect_rules(rt.alloc(), row)?;
    }
    Ok(())
}

#[test]
fn faults_are_told(rt: HostRuntime) -> Result<(), Fail> {
    for row in &FAULTS {
        expect_rules(rt.alloc(), row)?;
    }
    Ok(())
}

/// The text of `A.java`, whether attributes are shown, and what is told.
static TREES: [(&str, bool, &str); 5] = [
    ("", false, "CompilationUnit 1:1-1:1\n"),
    ("", true, "CompilationUnit 1:1-1:1 @PackageName=\"\"\n"),
    (
        "class A {}",
        false,
        "CompilationUnit 1:1-1:10\n  ClassDeclaration 1:1-1:10\n    ModifierList 1:1-1:1\n    ClassBody 1:9-1:10\n",
    ),
    ("class A {", false, "A.java: syntax fault"),
    ("\u{0}", true, "A.java: not UTF-8 at byte 0"),
];

#[test]
fn trees_are_shown(rt: HostRuntime) -> Result<(), Fail> {
    for (text, with_attributes, wanted) in &TREES {
        let found = file_told(rt.alloc(), &[("A.java", *text)], "A.java", *with_attributes)?;
        assert_eq!(rt; found.as_str(), *wanted);
    }
    Ok(())
}

#[test]
fn a_file_that_is_not_there_is_told(rt: HostRuntime) -> Result<(), Fail> {
    let found = file_told(rt.alloc(), &[("A.java", "")], "B.java", false)?;
    assert_eq!(rt; found.as_str(), "no such file: B.java");
    Ok(())
}
