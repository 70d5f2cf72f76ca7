use super::*;
use mount_table::Name;
use std::test::*;

#[test]
fn a_text_is_found_in_bytes(rt: HostRuntime) -> Result<(), Fail> {
    for (bytes, text, is_had) in [
        ("abc", "a", true),
        ("abc", "bc", true),
        ("abc", "abc", true),
        ("abc", "d", false),
        ("abc", "", true),
        ("", "", true),
        ("aab", "ab", true),
        ("ab", "abc", false),
    ] {
        assert_eq!(rt;
            has_text(bytes.as_bytes(), text.as_bytes()),
            is_had,
            "at {text}"
        );
    }
    Ok(())
}

#[test]
fn names_that_have_a_text_are_found(rt: HostRuntime) -> Result<(), Fail> {
    let mut names = Vec::new(rt.alloc());
    for name in ["web/site", "mail/web", "x"] {
        names.push(Name::read(rt.alloc(), name)?)?;
    }
    for (text, found) in [
        ("web", "web/site mail/web "),
        ("b/s", "web/site "),
        ("zz", ""),
    ] {
        let mut joined = String::new(rt.alloc());
        for name in &names_with(rt.alloc(), &names, text)? {
            joined.push_str(name.text())?;
            joined.push(' ')?;
        }
        assert_eq!(rt; joined.as_str(), found, "at {text}");
    }
    Ok(())
}
