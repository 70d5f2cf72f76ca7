use super::*;
use std::alloc::Global;
use std::process::Abort;
use std::test::*;

/// What the words give, as `Debug` writes it.
fn told(alloc: Global, words: &[&str]) -> Result<String, Fail> {
    let mut list = Vec::new(alloc);
    for word in words {
        list.push(String::from_str(alloc, word)?)?;
    }
    let answer = read_words(alloc, &list);
    Ok(format!(in alloc; "{answer:?}")?)
}

/// The words, and what they give.
type Row<'a> = (&'a [&'a str], &'a str);

const READ: &[Row] = &[
    // commands
    (&["show", "a/b"], r#"Ok(Show { name: "a/b" })"#),
    (&["find", "x y"], r#"Ok(Find { text: "x y" })"#),
    (
        &["insert", "a"],
        r#"Ok(Insert { name: "a", force: false, multi: false })"#,
    ),
    (&["ls"], "Ok(Ls { folder: None, flat: false })"),
    (&["list"], "Ok(Ls { folder: None, flat: false })"),
    (&["ls", "a"], r#"Ok(Ls { folder: Some("a"), flat: false })"#),
    (
        &["list", "a"],
        r#"Ok(Ls { folder: Some("a"), flat: false })"#,
    ),
    (&["mounts"], "Ok(Mounts)"),
    (&["recipients"], "Ok(Recipients)"),
    // options before and after the plain words
    (&["ls", "--flat"], "Ok(Ls { folder: None, flat: true })"),
    (
        &["ls", "--flat", "a"],
        r#"Ok(Ls { folder: Some("a"), flat: true })"#,
    ),
    (
        &["ls", "a", "--flat"],
        r#"Ok(Ls { folder: Some("a"), flat: true })"#,
    ),
    (
        &["insert", "-f", "a"],
        r#"Ok(Insert { name: "a", force: true, multi: false })"#,
    ),
    (
        &["insert", "a", "--force"],
        r#"Ok(Insert { name: "a", force: true, multi: false })"#,
    ),
    (
        &["insert", "a", "-m"],
        r#"Ok(Insert { name: "a", force: false, multi: true })"#,
    ),
    (
        &["insert", "--multiline", "a"],
        r#"Ok(Insert { name: "a", force: false, multi: true })"#,
    ),
    (
        &["insert", "-m", "-f", "a"],
        r#"Ok(Insert { name: "a", force: true, multi: true })"#,
    ),
    (
        &["insert", "--force", "--multiline", "a"],
        r#"Ok(Insert { name: "a", force: true, multi: true })"#,
    ),
];

const UNKNOWN: &[Row] = &[
    // a word that is no command
    (&[], "Err(Bad { at: 0 })"),
    (&[""], "Err(Bad { at: 0 })"),
    (&["shew", "a"], "Err(Bad { at: 0 })"),
    (&["Show", "a"], "Err(Bad { at: 0 })"),
    (&["sho", "a"], "Err(Bad { at: 0 })"),
    (&["shows", "a"], "Err(Bad { at: 0 })"),
    (&["show\0", "a"], "Err(Bad { at: 0 })"),
    (&["--flat", "ls"], "Err(Bad { at: 0 })"),
    (&["--", "ls"], "Err(Bad { at: 0 })"),
    (&["-f", "insert", "a"], "Err(Bad { at: 0 })"),
    (&["grep", "a"], "Err(Bad { at: 0 })"),
    // a capital letter is another byte, and a word may be as long as a row of the table, or longer
    (&["LS"], "Err(Bad { at: 0 })"),
    (&["lS"], "Err(Bad { at: 0 })"),
    (&["recipientsrecipi"], "Err(Bad { at: 0 })"),
    (&["recipientsrecipie"], "Err(Bad { at: 0 })"),
    // a command that looks at its second word, and no subcommand
    (&["mounts", "add", "a", "b"], "Err(Bad { at: 1 })"),
    (&["mounts", "--"], "Err(Bad { at: 1 })"),
    (&["mounts", "--flat"], "Err(Bad { at: 1 })"),
    (&["recipients", "x"], "Err(Bad { at: 1 })"),
    (&["recipients", "--"], "Err(Bad { at: 1 })"),
    (&["recipients", "--flat"], "Err(Bad { at: 1 })"),
    (&["recipient"], "Err(Bad { at: 0 })"),
    // an option that the command does not have, or that no command has
    (&["show", "--flat", "a"], "Err(Bad { at: 1 })"),
    (&["show", "a", "--flat"], "Err(Bad { at: 2 })"),
    (&["find", "-x"], "Err(Bad { at: 1 })"),
    (&["ls", "--Flat"], "Err(Bad { at: 1 })"),
    (&["ls", "--flaT"], "Err(Bad { at: 1 })"),
    (&["insert", "-F", "a"], "Err(Bad { at: 1 })"),
    (&["insert", "a", "-M"], "Err(Bad { at: 2 })"),
    (&["insert", "--multiline-text", "a"], "Err(Bad { at: 1 })"),
    (&["insert", "--multiline-texts", "a"], "Err(Bad { at: 1 })"),
    (&["ls", "--flat=a"], "Err(Bad { at: 1 })"),
    (&["show", "a", "-é"], "Err(Bad { at: 2 })"),
    (&["show", "-f", "a"], "Err(Bad { at: 1 })"),
    (&["ls", "-f"], "Err(Bad { at: 1 })"),
    (&["find", "a", "-m"], "Err(Bad { at: 2 })"),
    (&["insert", "-x"], "Err(Bad { at: 1 })"),
    (&["insert", "-fm", "a"], "Err(Bad { at: 1 })"),
    (&["insert", "--multi", "a"], "Err(Bad { at: 1 })"),
    (&["insert", "-f", "--flat", "a"], "Err(Bad { at: 2 })"),
];

const PLACED: &[Row] = &[
    // an option twice
    (&["ls", "--flat", "--flat"], "Err(Bad { at: 2 })"),
    (&["ls", "--flat", "a", "--flat"], "Err(Bad { at: 3 })"),
    (&["insert", "-f", "-f", "a"], "Err(Bad { at: 2 })"),
    (&["insert", "-f", "--force", "a"], "Err(Bad { at: 2 })"),
    (&["insert", "--multiline", "a", "-m"], "Err(Bad { at: 3 })"),
    // a lone dash is a plain word
    (&["find", "-"], r#"Ok(Find { text: "-" })"#),
    (&["ls", "-", "-"], "Err(Bad { at: 2 })"),
    // behind the dashes each word is plain
    (&["find", "--", "--flat"], r#"Ok(Find { text: "--flat" })"#),
    (&["find", "--", "--"], r#"Ok(Find { text: "--" })"#),
    (&["find", "a", "--"], r#"Ok(Find { text: "a" })"#),
    (
        &["insert", "--", "-x"],
        r#"Ok(Insert { name: "-x", force: false, multi: false })"#,
    ),
    (
        &["insert", "-f", "--", "-f"],
        r#"Ok(Insert { name: "-f", force: true, multi: false })"#,
    ),
    (&["ls", "--"], "Ok(Ls { folder: None, flat: false })"),
    (
        &["ls", "--flat", "--", "--flat"],
        r#"Ok(Ls { folder: Some("--flat"), flat: true })"#,
    ),
    (&["ls", "--", "--", "--flat"], "Err(Bad { at: 3 })"),
    (&["find", "--", "--", "a"], "Err(Bad { at: 3 })"),
    // plain words too many
    (&["show", "a", "b"], "Err(Bad { at: 2 })"),
    (&["insert", "a", "b"], "Err(Bad { at: 2 })"),
    (&["insert", "a", "-f", "b"], "Err(Bad { at: 3 })"),
    (&["ls", "a", "--flat", "b"], "Err(Bad { at: 3 })"),
    (&["ls", "a", "b", "--flat"], "Err(Bad { at: 2 })"),
    // the words end too early, and no word is bad
    (&["show"], "Err(Bad { at: 1 })"),
    (&["find"], "Err(Bad { at: 1 })"),
    (&["insert"], "Err(Bad { at: 1 })"),
    (&["insert", "-f", "-m"], "Err(Bad { at: 3 })"),
    (&["show", "--"], "Err(Bad { at: 2 })"),
    (&["show", "--flat"], "Err(Bad { at: 1 })"),
    // words that are not ASCII, and empty words
    (&["show", "grün/ß"], r#"Ok(Show { name: "grün/ß" })"#),
    (&["shöw", "a"], "Err(Bad { at: 0 })"),
    (&["show", "–flat"], r#"Ok(Show { name: "–flat" })"#),
    (&["show", ""], r#"Ok(Show { name: "" })"#),
];

/// The words of each row give what it says.
fn check<R: Abort + AllocGlobal>(rt: &R, rows: &[Row]) -> Result<(), Fail> {
    for (words, answer) in rows {
        assert_eq!(rt; told(rt.alloc(), words)?.as_str(), *answer, "{words:?}");
    }
    Ok(())
}

#[test]
fn commands_are_read_with_their_options(rt: HostRuntime) -> Result<(), Fail> {
    check(&rt, READ)
}

#[test]
fn unknown_words_are_bad(rt: HostRuntime) -> Result<(), Fail> {
    check(&rt, UNKNOWN)
}

#[test]
fn words_are_bad_by_their_place(rt: HostRuntime) -> Result<(), Fail> {
    check(&rt, PLACED)
}
