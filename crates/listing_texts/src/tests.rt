ghost use Rattle.std.specs.Prelude.{◌↔◌, IsTrue, All};
ghost use Rattle.mount_table.specs.Prefixes.{Holds};

use super::*;
use mount_table::{DirPath, Folder, Mounts, Name};
use path_rules::Rules;
use recipient_files::{Id, Recipients};
use std::test::*;

fn names(rt: &HostRuntime, texts: &[&str]) -> Result<Vec<Name>, Fail> {
    let mut names = Vec::new(rt.alloc());
    for text in texts {
        names.push(Name::read(rt.alloc(), text)?)?;
    }
    Ok(names)
}

fn are_held(folder: &Folder, names: &[Name]) -> bool
    ensures { IsTrue result ↔ All (Holds folder.now) names.now }
{
    names.iter().all(|name| folder.holds(name))
}

/// The tree of names, all of which the folder is to hold.
fn tree(rt: &HostRuntime, folder: &str, texts: &[&str]) -> Result<String, Fail> {
    let folder = Folder::read(rt.alloc(), folder)?;
    let names = names(rt, texts)?;
    let names = names.as_slice();
    if !are_held(&folder, names) {
        return Err(Fail::from("a name that the folder does not hold"));
    }
    Ok(String::from_utf8(tree_of(rt.alloc(), &folder, names)?)?)
}

#[test]
fn a_tree_has_a_line_for_each_folder_and_name(rt: HostRuntime) -> Result<(), Fail> {
    for (folder, texts, want) in [
        ("/", [].as_slice(), ""),
        ("/", &["a", "a/b"], "a\na/\n  b\n"),
        ("/", &["a-b", "a/b"], "a-b\na/\n  b\n"),
        (
            "/",
            &["a/b/c", "a/b/d", "a/e", "f"],
            "a/\n  b/\n    c\n    d\n  e\nf\n",
        ),
        ("a", &["a/b/c", "a/b/d", "a/e"], "b/\n  c\n  d\ne\n"),
        (
            "/",
            &["a/b/c", "d/b/c"],
            "a/\n  b/\n    c\nd/\n  b/\n    c\n",
        ),
    ] {
        assert_eq!(rt; tree(&rt, folder, texts)?.as_str(), want);
    }
    Ok(())
}

#[test]
fn each_name_has_a_line(rt: HostRuntime) -> Result<(), Fail> {
    for (texts, want) in [([].as_slice(), ""), (&["a", "a/b"], "a\na/b\n")] {
        let text = on_lines(rt.alloc(), &names(&rt, texts)?)?;
        assert_eq!(rt; String::from_utf8(text)?.as_str(), want);
    }
    Ok(())
}

#[test]
fn each_mount_has_a_line(rt: HostRuntime) -> Result<(), Fail> {
    let mut mounts = Mounts::only(rt.alloc(), &DirPath::read(rt.alloc(), "root")?)?;
    let work = Folder::read(rt.alloc(), "work")?;
    mounts.add(&work, &DirPath::read(rt.alloc(), "w")?)?;
    let text = mounts_text(rt.alloc(), &mounts)?;
    assert_eq!(rt;
        String::from_utf8(text)?.as_str(),
        "/\troot\tplain\nwork\tw\tplain\n"
    );
    Ok(())
}

/// Gives a folder the rule of these ids.
fn set(rt: &HostRuntime, rules: &mut Rules, folder: &str, ids: &[&str]) -> Result<(), Fail> {
    let mut list = Vec::new(rt.alloc());
    for id in ids {
        list.push(Id::read(rt.alloc(), id)?)?;
    }
    let folder = Folder::read(rt.alloc(), folder)?;
    rules.set(&folder, Recipients::of(rt.alloc(), &list)?)?;
    Ok(())
}

#[test]
fn each_rule_has_a_line(rt: HostRuntime) -> Result<(), Fail> {
    let mut rules = Rules::new(rt.alloc());
    assert!(rt; recipients_text(rt.alloc(), &rules)?.is_empty());
    set(&rt, &mut rules, "a/b", &["bob"])?;
    set(&rt, &mut rules, "/", &["bob", "alice"])?;
    let text = recipients_text(rt.alloc(), &rules)?;
    assert_eq!(rt;
        String::from_utf8(text)?.as_str(),
        "/\n  alice\n  bob\na/b\n  bob\n"
    );
    Ok(())
}
