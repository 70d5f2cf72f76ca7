use super::*;
use mount_table::{DirPath, Folder, Mounts, Name};
use recipient_files::{Id, Recipients};
use std::alloc::Global;
use std::test::Fail;

/// The set of these ids.
fn set_of(alloc: Global, texts: &[&str]) -> Result<Recipients, Fail> {
    let mut ids = Vec::new(alloc);
    for text in texts {
        ids.push(Id::read(alloc, text)?)?;
    }
    Ok(Recipients::of(alloc, &ids)?)
}

/// Gives a folder the rule of one id.
fn set(alloc: Global, rules: &mut Rules, folder: &str, id: &str) -> Result<(), Fail> {
    let folder = Folder::read(alloc, folder)?;
    rules.set(&folder, set_of(alloc, &[id])?)?;
    Ok(())
}

/// Rules of one id each.
fn rules_of(alloc: Global, entries: &[(&str, &str)]) -> Result<Rules, Fail> {
    let mut rules = Rules::new(alloc);
    for (folder, id) in entries {
        set(alloc, &mut rules, folder, id)?;
    }
    Ok(rules)
}

fn numbered(alloc: Global, number: usize) -> Result<DirPath, Fail> {
    let text = format!(in alloc; "d{number}")?;
    Ok(DirPath::read(alloc, &text)?)
}

fn add_mount(alloc: Global, mounts: &mut Mounts, number: usize, alias: &str) -> Result<(), Fail> {
    let dir = numbered(alloc, number)?;
    let alias = Folder::read(alloc, alias)?;
    Ok(mounts.add(&alias, &dir)?)
}

/// The root's mount, and one for each of these aliases in a directory of the same text.
fn mounts_of(alloc: Global, aliases: &[&str]) -> Result<Mounts, Fail> {
    let root = DirPath::read(alloc, "root")?;
    let mut mounts = Mounts::only(alloc, &root)?;
    for (number, alias) in aliases.iter().enumerate() {
        add_mount(alloc, &mut mounts, number, alias)?;
    }
    Ok(mounts)
}

fn names_of(alloc: Global, texts: &[&str]) -> Result<Vec<Name>, Fail> {
    let mut names = Vec::new(alloc);
    for text in texts {
        names.push(Name::read(alloc, text)?)?;
    }
    Ok(names)
}

/// A line for each id of the set, or nothing where there is none.
fn lines(alloc: Global, set: Option<&Recipients>) -> Result<Vec<u8>, Fail> {
    match set {
        Some(set) => Ok(set.write()?),
        None => Ok(Vec::new(alloc)),
    }
}

/// The lines of the set that governs the secret.
fn governing(alloc: Global, rules: &Rules, mounts: &Mounts, name: &str) -> Result<Vec<u8>, Fail> {
    let name = Name::read(alloc, name)?;
    let place = mounts.resolve(&name);
    lines(alloc, rules.governing(&name, &place))
}

/// Whether the set that governs the secret has these lines.
fn governs(
    alloc: Global,
    rules: &Rules,
    mounts: &Mounts,
    name: &str,
    want: &str,
) -> Result<bool, Fail> {
    Ok(governing(alloc, rules, mounts, name)?.as_slice() == want.as_bytes())
}

/// The lines of the folder's own rule.
fn rule_at(alloc: Global, rules: &Rules, folder: &str) -> Result<Vec<u8>, Fail> {
    lines(alloc, rules.at(&Folder::read(alloc, folder)?))
}

/// Whether the folder's own rule has these lines.
fn has_rule(alloc: Global, rules: &Rules, folder: &str, want: &str) -> Result<bool, Fail> {
    Ok(rule_at(alloc, rules, folder)?.as_slice() == want.as_bytes())
}

/// Secrets, and the lines of the sets that govern them.
const GOVERNED: &[(&str, &str)] = &[
    ("x", "alice\n"),
    ("a/bc", "alice\n"),
    ("a/b", "alice\n"),
    ("a/bc/d", "alice\n"),
    ("a/b/c", "bob\n"),
    ("a/b/c/d", "bob\n"),
    ("b/a/b/c", "alice\n"),
];

#[test]
fn longest_folder_governs(rt: HostRuntime) -> Result<(), Fail> {
    let rules = rules_of(rt.alloc(), &[("a/b", "bob"), ("/", "alice")])?;
    let mounts = mounts_of(rt.alloc(), &[])?;
    for (name, want) in GOVERNED {
        assert!(rt;
            governs(rt.alloc(), &rules, &mounts, name, want)?,
            "at {name}"
        );
    }
    Ok(())
}

/// Whether the rule of the folder alone governs the secret so.
fn one_governs(
    alloc: Global,
    mounts: &Mounts,
    folder: &str,
    name: &str,
    want: &str,
) -> Result<bool, Fail> {
    let rules = rules_of(alloc, &[(folder, "alice")])?;
    governs(alloc, &rules, mounts, name, want)
}

/// Folders, secrets, and the lines of the folder's set where it governs the secret.
const BY_MOUNTS: &[(&str, &str, &str)] = &[
    ("/", "x", "alice\n"),
    ("/", "work", "alice\n"),
    ("/", "work/x", ""),
    ("/", "work/db/x", ""),
    ("work", "x", ""),
    ("work", "work/x", "alice\n"),
    ("work", "work/dbx/x", "alice\n"),
    ("work", "work/db", "alice\n"),
    ("work", "work/db/x", ""),
    ("work/db", "work/db/x", "alice\n"),
    ("work/db/x", "work/db/x/y", "alice\n"),
];

#[test]
fn no_folder_above_the_mount_governs(rt: HostRuntime) -> Result<(), Fail> {
    let mounts = mounts_of(rt.alloc(), &["work", "work/db"])?;
    for (folder, name, want) in BY_MOUNTS {
        assert!(rt;
            one_governs(rt.alloc(), &mounts, folder, name, want)?,
            "at {folder} for {name}"
        );
    }
    Ok(())
}

#[test]
fn no_rule_governs_without_rules(rt: HostRuntime) -> Result<(), Fail> {
    let rules = Rules::new(rt.alloc());
    let mounts = mounts_of(rt.alloc(), &["work"])?;
    for name in &["x", "a/b", "work/x"] {
        assert!(rt;
            governs(rt.alloc(), &rules, &mounts, name, "")?,
            "at {name}"
        );
    }
    assert!(rt; rules.folders().is_empty());
    Ok(())
}

/// Whether the rule that is taken from the folder has these lines.
fn is_unset(rules: &mut Rules, folder: &Folder, want: &[u8]) -> Result<bool, Fail> {
    let taken = rules.unset(folder)?;
    Ok(taken.write()?.as_slice() == want)
}

fn is_absent(rules: &mut Rules, folder: &Folder) -> bool {
    matches!(rules.unset(folder), Err(Absent)) && rules.at(folder).is_none()
}

/// Whether the rule of `a` goes, once.
fn goes(alloc: Global, rules: &mut Rules) -> Result<bool, Fail> {
    let a = Folder::read(alloc, "a")?;
    Ok(is_unset(rules, &a, b"bob\n")? && is_absent(rules, &a))
}

/// Folders, and the lines of their own rules.
const CAME: &[(&str, &str)] = &[("a", "bob\n"), ("b", "carol\n"), ("/", ""), ("a/b", "")];

#[test]
fn rules_come_and_go(rt: HostRuntime) -> Result<(), Fail> {
    let mut rules = rules_of(rt.alloc(), &[("a", "alice"), ("b", "carol"), ("a", "bob")])?;
    assert_eq!(rt; rules.folders().len(), 2);
    for (folder, want) in CAME {
        assert!(rt; has_rule(rt.alloc(), &rules, folder, want)?, "at {folder}");
    }
    assert!(rt; goes(rt.alloc(), &mut rules)?);
    assert!(rt; has_rule(rt.alloc(), &rules, "b", "carol\n")?);
    Ok(())
}

/// The folders that have a rule, with a space behind each.
fn folders_text(alloc: Global, rules: &Rules) -> Result<String, Fail> {
    let mut texts = String::new(alloc);
    for folder in rules.folders() {
        texts.push_str(folder.text())?;
        texts.push(' ')?;
    }
    Ok(texts)
}

#[test]
fn folders_rise_by_their_bytes(rt: HostRuntime) -> Result<(), Fail> {
    let entries = [
        ("b", "b"),
        ("a/b", "a"),
        ("/", "r"),
        ("a", "a"),
        ("a-b", "a"),
    ];
    let rules = rules_of(rt.alloc(), &entries)?;
    assert!(rt; folders_text(rt.alloc(), &rules)?.as_str() == " a a-b a/b b ");
    Ok(())
}

fn set_numbered(alloc: Global, rules: &mut Rules, number: u32) -> Result<(), Fail> {
    let folder = format!(in alloc; "f{number}")?;
    set(alloc, rules, &folder, "alice")
}

fn full(alloc: Global) -> Result<Rules, Fail> {
    let mut rules = Rules::new(alloc);
    for number in 0..512u32 {
        set_numbered(alloc, &mut rules, number)?;
    }
    Ok(rules)
}

/// Why the folder is not given the rule of bob.
fn bob_fault(alloc: Global, rules: &mut Rules, folder: &str) -> Result<Option<RulesFault>, Fail> {
    let folder = Folder::read(alloc, folder)?;
    let bob = set_of(alloc, &["bob"])?;
    Ok(rules.set(&folder, bob).err())
}

#[test]
fn at_most_512_folders_have_a_rule(rt: HostRuntime) -> Result<(), Fail> {
    let mut rules = full(rt.alloc())?;
    for (folder, fault, want) in [
        ("g", Some(RulesFault::Full), ""),
        ("/", Some(RulesFault::Full), ""),
        ("f511", None, "bob\n"),
    ] {
        assert_eq!(rt;
            bob_fault(rt.alloc(), &mut rules, folder)?,
            fault,
            "at {folder}"
        );
        assert!(rt; has_rule(rt.alloc(), &rules, folder, want)?, "at {folder}");
    }
    assert_eq!(rt; rules.folders().len(), 512);
    Ok(())
}

#[test]
fn copies_are_equal(rt: HostRuntime) -> Result<(), Fail> {
    let rules = rules_of(rt.alloc(), &[("/", "alice"), ("a/b", "bob")])?;
    let mut copy = rules.copy()?;
    for (folder, want) in [("/", "alice\n"), ("a/b", "bob\n"), ("a", "")] {
        assert!(rt; has_rule(rt.alloc(), &copy, folder, want)?, "at {folder}");
    }
    assert_eq!(rt; copy.folders().len(), 2);
    set(rt.alloc(), &mut copy, "/", "carol")?;
    assert!(rt; has_rule(rt.alloc(), &rules, "/", "alice\n")?);
    Ok(())
}

/// The names that the change is about, with a space behind each.
fn affected_texts(
    alloc: Global,
    before: &Rules,
    after: &Rules,
    mounts: &Mounts,
    names: &[Name],
) -> Result<String, Fail> {
    let mut texts = String::new(alloc);
    for name in &affected(alloc, before, after, mounts, names)? {
        texts.push_str(name.text())?;
        texts.push(' ')?;
    }
    Ok(texts)
}

/// The rules with another one of this id, or with one less.
fn changed(alloc: Global, before: &Rules, folder: &str, id: &str) -> Result<Rules, Fail> {
    let mut after = before.copy()?;
    change(alloc, &mut after, folder, id)?;
    Ok(after)
}

fn unset(alloc: Global, rules: &mut Rules, folder: &str) -> Result<(), Fail> {
    let folder = Folder::read(alloc, folder)?;
    let _ = rules.unset(&folder)?;
    Ok(())
}

fn change(alloc: Global, rules: &mut Rules, folder: &str, id: &str) -> Result<(), Fail> {
    if id.is_empty() {
        unset(alloc, rules, folder)
    } else {
        set(alloc, rules, folder, id)
    }
}

/// A change of a folder's rule, to this id or to none, and the names that it is about.
type Case = (&'static str, &'static str, &'static str);

const CASES: &[Case] = &[
    ("a/b", "", "a/b/c "),
    ("a/b", "bob", ""),
    ("a/b", "eve", "a/b/c "),
    ("a/b", "alice", "a/b/c "),
    ("/", "", "a/bc a/b "),
    ("/", "carol", "a/bc a/b "),
    ("a", "alice", ""),
    ("work", "bob", "work/x "),
];

/// Whether the change, and the one back, are about these names.
fn affects(
    alloc: Global,
    before: &Rules,
    mounts: &Mounts,
    names: &[Name],
    case: Case,
) -> Result<bool, Fail> {
    let (folder, id, want) = case;
    let after = changed(alloc, before, folder, id)?;
    Ok(
        affected_texts(alloc, before, &after, mounts, names)?.as_str() == want
            && affected_texts(alloc, &after, before, mounts, names)?.as_str() == want,
    )
}

#[test]
fn a_change_affects_the_names_that_it_governs(rt: HostRuntime) -> Result<(), Fail> {
    let mounts = mounts_of(rt.alloc(), &["work"])?;
    let names = names_of(rt.alloc(), &["a/bc", "a/b/c", "a/b", "work/x"])?;
    let before = rules_of(rt.alloc(), &[("/", "alice"), ("a/b", "bob")])?;
    for case in CASES {
        assert!(rt;
            affects(rt.alloc(), &before, &mounts, &names, *case)?,
            "{}",
            case.0
        );
    }
    Ok(())
}

#[test]
fn rules_cross_threads(rt: HostRuntime) {
    fn is_send<T: Send>(_: &T) {}
    is_send(&Rules::new(rt.alloc()));
}
