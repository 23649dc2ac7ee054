// Documents built by hand, and their written texts.
use crate::tree::{Attribute, Child, Doc, Element, Prefix};
use crate::write::{XMI, write_doc};
use atl_base::place::Place;
use atl_base::text::{Text, TextRefusal};
use sqlite_items::Items;
use std::alloc::Global;
use std::test::Fail;

fn text(alloc: Global, words: &str) -> Result<Text, TextRefusal> {
    Text::from_bytes(alloc, words.as_bytes())
}

// Namespaces, each as its prefix and its name.
fn prefixes(alloc: Global, pairs: &[(&str, &str)]) -> Result<Items<Prefix>, TextRefusal> {
    let mut list = Items::new(alloc);
    for &(prefix, uri) in pairs {
        list.push(Prefix {
            prefix: text(alloc, prefix)?,
            uri: text(alloc, uri)?,
        })?;
    }
    Ok(list)
}

// Attributes, each as its namespace, name and value.
fn attributes(alloc: Global, rows: &[(&str, &str, &str)]) -> Result<Items<Attribute>, TextRefusal> {
    let mut list = Items::new(alloc);
    for &(space, name, value) in rows {
        list.push(Attribute {
            space: text(alloc, space)?,
            name: text(alloc, name)?,
            value: text(alloc, value)?,
        })?;
    }
    Ok(list)
}

// An element in a namespace, with no declarations, attributes or children yet.
fn element(alloc: Global, space: &str, name: &str) -> Result<Element, TextRefusal> {
    Ok(Element {
        space: text(alloc, space)?,
        name: text(alloc, name)?,
        declared: Items::new(alloc),
        attributes: Items::new(alloc),
        children: Items::new(alloc),
        place: Place { line: 1, column: 1 },
    })
}

// An element that holds one text.
fn worded(alloc: Global, name: &str, words: &str) -> Result<Element, TextRefusal> {
    let mut made = element(alloc, "", name)?;
    made.children.push(Child::Words(text(alloc, words)?))?;
    Ok(made)
}

#[test]
fn a_root_alone_is_written(rt: HostRuntime) -> Result<(), Fail> {
    let root = element(rt.alloc(), "", "a")?;
    let written = write_doc(rt.alloc(), &Doc { root })?;
    assert_eq!(rt;
        written.as_str(),
        "<?xml version=\"1.0\" encoding=\"UTF-8\"?>\n<a/>\n"
    );
    Ok(())
}

#[test]
fn children_stand_in_lines_of_their_own(rt: HostRuntime) -> Result<(), Fail> {
    let alloc = rt.alloc();
    let mut inner = element(alloc, "", "inner")?;
    inner
        .children
        .push(Child::Sub(worded(alloc, "t", "a<b&c>d\r")?))?;
    inner
        .children
        .push(Child::Sub(element(alloc, "", "last")?))?;
    let mut root = element(alloc, "", "root")?;
    root.children
        .push(Child::Sub(element(alloc, "", "first")?))?;
    root.children.push(Child::Sub(inner))?;
    let written = write_doc(alloc, &Doc { root })?;
    assert_eq!(rt;
        written.as_str(),
        "<?xml version=\"1.0\" encoding=\"UTF-8\"?>\n<root>\n  <first/>\n  <inner>\n    <t>a&lt;b&amp;c&gt;d&#xD;</t>\n    <last/>\n  </inner>\n</root>\n"
    );
    Ok(())
}

#[test]
fn the_version_stands_before_the_declarations(rt: HostRuntime) -> Result<(), Fail> {
    let alloc = rt.alloc();
    let mut root = element(alloc, "urn:p", "root")?;
    root.declared = prefixes(alloc, &[("xmi", XMI), ("p", "urn:p")])?;
    root.attributes = attributes(
        alloc,
        &[
            ("", "q", "a\"b\tc\nd\re"),
            (XMI, "version", "2.0"),
            (XMI, "id", "é"),
        ],
    )?;
    let written = write_doc(alloc, &Doc { root })?;
    assert_eq!(rt;
        written.as_str(),
        "<?xml version=\"1.0\" encoding=\"UTF-8\"?>\n<p:root xmi:version=\"2.0\" xmlns:xmi=\"http://www.omg.org/XMI\" xmlns:p=\"urn:p\" q=\"a&quot;b&#x9;c&#xA;d&#xD;e\" xmi:id=\"é\"/>\n"
    );
    Ok(())
}
