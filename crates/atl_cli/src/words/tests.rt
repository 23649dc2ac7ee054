// The words of `transform`: which are of the form, and what they ask for.
use super::*;
use std::test::Fail;

// The module and the pairs that the words ask for, or none.
fn shown(alloc: Global, words: &[&str]) -> Result<String, Fail> {
    let mut texts = Vec::new(alloc);
    for word in words {
        texts.push(Text::from_bytes(alloc, word.as_bytes())?)?;
    }
    let Some(request) = read_words(alloc, texts.as_slice())? else {
        return Ok(String::from_str(alloc, "none")?);
    };
    let mut shown = String::from_str(alloc, request.module.as_str())?;
    for pair in request.pairs.as_slice() {
        let (name, path) = (pair.name.as_str(), pair.path.as_str());
        shown.push_str(format!(in alloc; " [{name}][{path}]")?.as_str())?;
    }
    Ok(shown)
}

#[test]
fn words_are_read(rt: HostRuntime) -> Result<(), Fail> {
    let cases: [(&[&str], &str); 15] = [
        (
            &[
                "transform",
                "m.atl",
                "OUT=o.xmi",
                "B=b.ecore",
                "IN=i.xmi",
                "A=a.ecore",
            ],
            "m.atl [OUT][o.xmi] [B][b.ecore] [IN][i.xmi] [A][a.ecore]",
        ),
        (
            &[
                "transform",
                "m.atl",
                "A=a.ecore",
                "IN=i.xmi",
                "OUT=o.xmi",
                "B=b.ecore",
            ],
            "m.atl [A][a.ecore] [IN][i.xmi] [OUT][o.xmi] [B][b.ecore]",
        ),
        (
            &["transform", "a=b", "x=é", "a=b=c", "y==", "z=-"],
            "a=b [x][é] [a][b=c] [y][=] [z][-]",
        ),
        (&[], "none"),
        (&["transform"], "none"),
        (&["transform", "m", "a=1", "b=2", "c=3"], "none"),
        (
            &["transform", "m", "a=1", "b=2", "c=3", "d=4", "e=5"],
            "none",
        ),
        (&["Transform", "m", "a=1", "b=2", "c=3", "d=4"], "none"),
        (&["transform", "m", "a=1", "b=2", "c3", "d=4"], "none"),
        (&["transform", "m", "=1", "b=2", "c=3", "d=4"], "none"),
        (&["transform", "m", "a=1", "b=2", "c=3", "d="], "none"),
        (&["transform", "m", "a=1", "b=2", "c=3", "a=4"], "none"),
        (&["transform", "-m", "a=1", "b=2", "c=3", "d=4"], "none"),
        (&["transform", "m", "a=1", "-b=2", "c=3", "d=4"], "none"),
        (&["transform", "", "a=1", "b=2", "c=3", "d=4"], "none"),
    ];
    for (words, expected) in cases {
        assert_eq!(rt; shown(rt.alloc(), words)?.as_str(), expected, "{words:?}");
    }
    Ok(())
}
