// Models' files over one metamodel: an outline in full, and faults of each kind with value and place.
use crate::first_fault::element_fault;
use crate::outline::{declarations, outline};
use doc_text::read_doc;
use doc_text::tree::Doc;
use ecore_meta::metamodel::Metamodel;
use shown::{show_entries, show_fault};
use small::is_small;
use std::alloc::Global;
use std::test::Fail;
use xmi_names::vocabulary::Vocabulary;
use xmi_read::laws::outline_is_within_its_document;
use xmi_read::read_metamodel::read_metamodel;
use xmi_text::level::Levels;

mod shown;
mod small;

const LIBRARY: &str =
    "<ecore:EPackage xmi:version=\"2.0\" xmlns:xmi=\"http://www.omg.org/XMI\" xmlns:xsi=\"http://www.w3.org/2001/XMLSchema-instance\" xmlns:ecore=\"http://www.eclipse.org/emf/2002/Ecore\" name=\"L\" nsURI=\"urn:l\" nsPrefix=\"l\">
<eClassifiers xsi:type=\"ecore:EClass\" name=\"Library\">
<eStructuralFeatures xsi:type=\"ecore:EAttribute\" name=\"name\" eType=\"ecore:EDataType http://www.eclipse.org/emf/2002/Ecore#//EString\"/>
<eStructuralFeatures xsi:type=\"ecore:EReference\" name=\"items\" upperBound=\"-1\" eType=\"#//Item\" containment=\"true\"/>
<eStructuralFeatures xsi:type=\"ecore:EReference\" name=\"best\" eType=\"#//Book\" containment=\"true\"/>
<eStructuralFeatures xsi:type=\"ecore:EReference\" name=\"owner\" eType=\"#//Person\"/>
<eStructuralFeatures xsi:type=\"ecore:EReference\" name=\"guests\" upperBound=\"-1\" eType=\"#//Person\"/>
<eStructuralFeatures xsi:type=\"ecore:EAttribute\" name=\"size\" eType=\"ecore:EDataType http://www.eclipse.org/emf/2002/Ecore#//EInt\"/>
<eStructuralFeatures xsi:type=\"ecore:EAttribute\" name=\"open\" eType=\"ecore:EDataType http://www.eclipse.org/emf/2002/Ecore#//EBoolean\"/>
<eStructuralFeatures xsi:type=\"ecore:EAttribute\" name=\"tags\" upperBound=\"-1\" eType=\"ecore:EDataType http://www.eclipse.org/emf/2002/Ecore#//EString\"/>
<eStructuralFeatures xsi:type=\"ecore:EAttribute\" name=\"sort\" eType=\"#//Sort\"/>
<eStructuralFeatures xsi:type=\"ecore:EAttribute\" name=\"label\" derived=\"true\" eType=\"ecore:EDataType http://www.eclipse.org/emf/2002/Ecore#//EString\"/>
</eClassifiers>
<eClassifiers xsi:type=\"ecore:EClass\" name=\"Item\" abstract=\"true\">
<eStructuralFeatures xsi:type=\"ecore:EAttribute\" name=\"title\" eType=\"ecore:EDataType http://www.eclipse.org/emf/2002/Ecore#//EString\"/>
<eStructuralFeatures xsi:type=\"ecore:EAttribute\" name=\"shown\" transient=\"true\" eType=\"ecore:EDataType http://www.eclipse.org/emf/2002/Ecore#//EString\"/>
</eClassifiers>
<eClassifiers xsi:type=\"ecore:EClass\" name=\"Book\" eSuperTypes=\"#//Item\">
<eStructuralFeatures xsi:type=\"ecore:EAttribute\" name=\"pages\" eType=\"ecore:EDataType http://www.eclipse.org/emf/2002/Ecore#//EInt\"/>
</eClassifiers>
<eClassifiers xsi:type=\"ecore:EClass\" name=\"Person\">
<eStructuralFeatures xsi:type=\"ecore:EAttribute\" name=\"href\" eType=\"ecore:EDataType http://www.eclipse.org/emf/2002/Ecore#//EString\"/>
</eClassifiers>
<eClassifiers xsi:type=\"ecore:EEnum\" name=\"Sort\">
<eLiterals name=\"small\"/>
<eLiterals name=\"large\" value=\"1\" literal=\"LARGE\"/>
</eClassifiers>
</ecore:EPackage>";

const HEAD: &str =
    " xmlns:xmi=\"http://www.omg.org/XMI\" xmlns:xsi=\"http://www.w3.org/2001/XMLSchema-instance\" xmlns:l=\"urn:l\"";

fn document(alloc: Global, text: &str) -> Result<Doc, Fail> {
    let bytes = text.as_bytes();
    if bytes.len() > 4294967294 {
        return Err(Fail::new("too long"));
    }
    Ok(read_doc(alloc, bytes)?)
}

fn library(alloc: Global) -> Result<Metamodel, Fail> {
    let doc = document(alloc, LIBRARY)?;
    if !is_small(&doc) {
        return Err(Fail::new("too large"));
    }
    outline_is_within_its_document();
    Ok(read_metamodel(alloc, &doc)?)
}

// A model's file: a root of this name, with what stands in its tag and behind it.
fn model(alloc: Global, root: &str, content: &str) -> Result<Doc, Fail> {
    let text = format!(in alloc; "<{}{}{}</{}>", root, HEAD, content, root)?;
    document(alloc, text.as_str())
}

// All kinds of elements: one that is passed over, and what stands in elements that are not looked into.
const ELEMENTS: &str = " xmi:version=\"2.0\">
<l:Library name=\"one\">
<items xsi:type=\"l:Book\" title=\"t\"><pages>7</pages></items>
<items/>
<label>passed<over/></label>
<owner xmi:type=\"l:Person\"/>
<guests><below/></guests>
<thing xsi:type=\"l:Book\"/>
<thing><below/></thing>
<tags>c<in><deep/></in></tags>
<best xmlns=\"urn:l\" xsi:type=\"Book\"><title>u</title><shown/></best>
</l:Library>
<l:Person/>
<Person/>
";

const SHOWN_ELEMENTS: &str = "XMI: around
Library: class 0
items: class 2 in object 0 by 1
pages: value of object 1 for 10
items: class 1 in object 0 by 1
owner: class 3 across by 3
guests: class 3 across by 4
thing: unknown, asks for class 2
thing: unknown, asks for nothing
tags: value of object 0 for 7
in: inner
best: class 2 in object 0 by 2
title: value of object 3 for 9
Person: class 3
Person: no class
objects: 6
";

fn show_with(
    alloc: Global,
    meta: &Vocabulary<'_>,
    doc: &Doc,
    levels: &Levels<'_>,
) -> Result<String, Fail> {
    let file = outline(alloc, doc, levels, meta)?;
    let shown = show_entries(alloc, &file.entries)?;
    Ok(format!(in alloc; "{}objects: {}\n", shown.as_str(), file.objects)?)
}

// The outline of a document, a line for each element, and how many objects there are.
fn show(alloc: Global, meta: &Vocabulary<'_>, doc: &Doc) -> Result<String, Fail> {
    let levels = declarations(alloc, doc)?;
    show_with(alloc, meta, doc, &levels)
}

fn shown_outline(alloc: Global, root: &str, content: &str) -> Result<String, Fail> {
    let meta = library(alloc)?;
    let meta = Vocabulary::new(alloc, &meta)?;
    let doc = model(alloc, root, content)?;
    show(alloc, &meta, &doc)
}

#[test]
fn an_outline(rt: HostRuntime) -> Result<(), Fail> {
    let shown = shown_outline(rt.alloc(), "xmi:XMI", ELEMENTS)?;
    assert_eq!(rt; shown.as_str(), SHOWN_ELEMENTS);
    Ok(())
}

fn first_with(
    alloc: Global,
    meta: &Vocabulary<'_>,
    doc: &Doc,
    levels: &Levels<'_>,
) -> Result<String, Fail> {
    let file = outline(alloc, doc, levels, meta)?;
    let found = element_fault(alloc, meta, &file.entries)?;
    Ok(show_fault(alloc, &found)?)
}

// The first fault of a document, as text.
fn first_of(alloc: Global, meta: &Vocabulary<'_>, doc: &Doc) -> Result<String, Fail> {
    let levels = declarations(alloc, doc)?;
    first_with(alloc, meta, doc, &levels)
}

fn first(alloc: Global, meta: &Vocabulary<'_>, root: &str, content: &str) -> Result<String, Fail> {
    let doc = model(alloc, root, content)?;
    first_of(alloc, meta, &doc)
}

// The root, what stands in its tag and behind it, and the kind, value and place of the first fault.
type Case = (&'static str, &'static str, &'static str);

// The first of these whose first fault is another one, with that fault.
fn first_wrong(alloc: Global, cases: &[Case]) -> Result<String, Fail> {
    let meta = library(alloc)?;
    let meta = Vocabulary::new(alloc, &meta)?;
    for (root, content, told) in cases {
        let shown = first(alloc, &meta, root, content)?;
        if shown.as_str() != *told {
            return Ok(format!(in alloc; "<{}{}: {}", root, content, shown.as_str())?);
        }
    }
    Ok(String::new(alloc))
}

const FILES_WITHOUT_FAULTS: &[Case] = &[
    (
        "l:Library",
        ">\n<items xmlns:p0=\"urn:l\" xmlns:p1=\"urn:l\" xmlns:p2=\"urn:l\" xmlns:p3=\"urn:l\" xmlns:p4=\"urn:l\" xmlns:p5=\"urn:other\" xmlns:p6=\"urn:l\" xmlns:p7=\"urn:l\" xmlns:p8=\"urn:l\" xmlns:p9=\"urn:l\" xmlns:p10=\"urn:l\" xmlns:p11=\"urn:l\" xmlns:p12=\"urn:l\" xmlns:p13=\"urn:l\" xmlns:p14=\"urn:l\" xmlns:p15=\"urn:l\" xmlns:p16=\"urn:l\" xmlns:p17=\"urn:l\" xsi:type=\"p17:Book\"><title/></items>",
        "none",
    ),
    (
        "l:Library",
        " size=\"1\">\n<tags>b</tags><tags/><items xsi:type=\"l:Book\"/><items xmi:type=\"l:Book\" title=\"\"/><best/><label><at/>all</label><open>false</open>",
        "none",
    ),
    ("l:Person", " href=\"other.xmi#/\">", "none"),
    ("xmi:XMI", " xmi:version=\"2.0\">\n", "none"),
    (
        "l:Library",
        ">\n<items xmlns:k=\"urn:l\" xsi:type=\"k:Book\"/>",
        "none",
    ),
];

#[test]
fn files_without_faults(rt: HostRuntime) -> Result<(), Fail> {
    assert_eq!(rt; first_wrong(rt.alloc(), FILES_WITHOUT_FAULTS)?.as_str(), "");
    Ok(())
}

const FAULTS_OF_CLASSES: &[Case] = &[
    (
        "l:Library",
        ">\n<best xmlns:p0=\"urn:l\" xmlns:p1=\"urn:l\" xmlns:p2=\"urn:l\" xmlns:p3=\"urn:l\" xmlns:p4=\"urn:l\" xmlns:p5=\"urn:other\" xmlns:p6=\"urn:l\" xmlns:p7=\"urn:l\" xmlns:p8=\"urn:l\" xmlns:p9=\"urn:l\" xmlns:p10=\"urn:l\" xmlns:p11=\"urn:l\" xmlns:p12=\"urn:l\" xmlns:p13=\"urn:l\" xmlns:p14=\"urn:l\" xmlns:p15=\"urn:l\" xmlns:p16=\"urn:l\" xmlns:p17=\"urn:l\" xsi:type=\"p5:Book\"/>",
        "NoClass 'p5:Book' 2:1",
    ),
    ("l:Shelf", ">", "NoClass 'Shelf' 1:1"),
    ("Library", ">", "NoClass 'Library' 1:1"),
    ("xmi:XMI", ">\n<xmi:XMI/>", "NoClass 'XMI' 2:1"),
    (
        "l:Library",
        ">\n<items xsi:type=\"l:Shelf\" wrong=\"1\"/>",
        "NoClass 'l:Shelf' 2:1",
    ),
    (
        "l:Library",
        ">\n<items xsi:type=\"k:Book\" xmi:type=\"l:Book\"/>",
        "NoClass 'k:Book' 2:1",
    ),
    (
        "l:Library",
        ">\n<best xsi:type=\"Book\"/>",
        "NoClass 'Book' 2:1",
    ),
    (
        "l:Library",
        ">\n<owner xsi:type=\"l:Shelf\" href=\"a#b\"/>",
        "NoClass 'l:Shelf' 2:1",
    ),
    (
        "l:Library",
        ">\n<none xsi:type=\"l:Shelf\"/>",
        "NoClass 'l:Shelf' 2:1",
    ),
    ("l:Item", ">", "Abstract 'Item' 1:1"),
    ("l:Library", ">\n<items/>", "Abstract 'items' 2:1"),
    (
        "l:Library",
        ">\n<items xmi:type=\"l:Item\"/>",
        "Abstract 'l:Item' 2:1",
    ),
];

#[test]
fn faults_of_classes(rt: HostRuntime) -> Result<(), Fail> {
    assert_eq!(rt; first_wrong(rt.alloc(), FAULTS_OF_CLASSES)?.as_str(), "");
    Ok(())
}

const FAULTS_OF_FEATURES: &[Case] = &[
    (
        "l:Library",
        " colour=\"1\">\n<items/>",
        "NoFeature 'colour' 1:1",
    ),
    (
        "l:Library",
        " xsi:type=\"l:Library\">",
        "NoFeature 'type' 1:1",
    ),
    ("l:Library", " l:name=\"a\">", "NoFeature 'name' 1:1"),
    ("xmi:XMI", " name=\"a\">", "NoFeature 'name' 1:1"),
    (
        "l:Library",
        ">\n<name xsi:type=\"l:Book\"/>",
        "NoFeature 'type' 2:1",
    ),
    (
        "l:Library",
        ">\n<name><b>c</b>d</name>",
        "StrayText 'name' 2:1",
    ),
    ("l:Library", ">\n<name><b>c</b></name>", "NoFeature 'b' 2:7"),
    (
        "l:Library",
        ">\n<none wrong=\"1\"/>",
        "NoFeature 'none' 2:1",
    ),
    ("l:Library", ">\n<owner/>", "NoFeature 'owner' 2:1"),
    (
        "l:Library",
        ">\n<guests href=\"a#b\"/>",
        "NoFeature 'guests' 2:1",
    ),
    (
        "l:Library",
        ">\n<guests xsi:type=\"l:Book\" href=\"a#b\"/>",
        "Href 'a#b' 2:1",
    ),
];

#[test]
fn faults_of_features(rt: HostRuntime) -> Result<(), Fail> {
    assert_eq!(rt; first_wrong(rt.alloc(), FAULTS_OF_FEATURES)?.as_str(), "");
    Ok(())
}

const TEXT_OUT_OF_PLACE: &[Case] = &[
    ("l:Library", ">\n<best>a</best>", "StrayText 'best' 2:1"),
    ("l:Library", ">a", "StrayText 'Library' 1:1"),
    ("xmi:XMI", ">\na<l:Item/>", "StrayText 'XMI' 1:1"),
];

#[test]
fn text_out_of_place(rt: HostRuntime) -> Result<(), Fail> {
    assert_eq!(rt; first_wrong(rt.alloc(), TEXT_OUT_OF_PLACE)?.as_str(), "");
    Ok(())
}

const FAULTS_OF_VALUES: &[Case] = &[
    (
        "l:Library",
        " name=\"a\" size=\"-07\" open=\"true\" sort=\"LARGE\" label=\"x\" owner=\"/1\" guests=\"/1 #x y\" xmi:id=\"i\" xsi:schemaLocation=\"u v\" tags=\"a\">\n<tags>b</tags>\n<best title=\"t\" pages=\"1\" shown=\"x\"/>\n<items xsi:type=\"l:Book\"><title/><title/></items>",
        "BadValue '' 4:34",
    ),
    ("l:Library", " size=\"1 \">", "BadValue '1 ' 1:1"),
    (
        "l:Library",
        " size=\"9223372036854775808\">",
        "BadValue '9223372036854775808' 1:1",
    ),
    ("l:Library", " open=\"True\">", "BadValue 'True' 1:1"),
    ("l:Library", " sort=\"large\">", "BadValue 'large' 1:1"),
    ("l:Library", " owner=\"/1  /2 /3\">", "BadValue '/2' 1:1"),
    (
        "l:Library",
        " xsi:nil=\"true\" size=\"x\">",
        "BadValue '' 1:1",
    ),
    ("l:Library", " items=\"/1\">", "BadValue '/1' 1:1"),
    (
        "l:Library",
        " size=\"1\">\n<size>2</size>",
        "BadValue '2' 2:1",
    ),
    (
        "l:Library",
        ">\n<size>1</size>\n<open>true</open>\n<size>3</size>",
        "BadValue '3' 4:1",
    ),
    ("l:Library", ">\n<size>x</size>", "BadValue 'x' 2:1"),
    (
        "l:Library",
        ">\n<best/>\n<best pages=\"x\"/>",
        "BadValue '' 3:1",
    ),
    (
        "l:Library",
        ">\n<tags xsi:nil=\"true\"/>",
        "BadValue '' 2:1",
    ),
];

#[test]
fn faults_of_values(rt: HostRuntime) -> Result<(), Fail> {
    assert_eq!(rt; first_wrong(rt.alloc(), FAULTS_OF_VALUES)?.as_str(), "");
    Ok(())
}

const OTHER_FILES: &[Case] = &[
    ("l:Library", " href=\"other.xmi\">", "Href 'other.xmi' 1:1"),
    ("l:Library", " guests=\"/1 #x b#c d#e\">", "Href 'b#c' 1:1"),
    (
        "l:Library",
        ">\n<best href=\"other.xmi#/\"/>",
        "Href 'other.xmi#/' 2:1",
    ),
    ("l:Library", ">\n<name href=\"x\">a</name>", "Href 'x' 2:1"),
    (
        "l:Library",
        ">\n<best href=\"b#c\" guests=\"d#e\"/>",
        "NoFeature 'guests' 2:1",
    ),
];

#[test]
fn other_files(rt: HostRuntime) -> Result<(), Fail> {
    assert_eq!(rt; first_wrong(rt.alloc(), OTHER_FILES)?.as_str(), "");
    Ok(())
}

const CHILDREN_THAT_DO_NOT_FIT: &[Case] = &[
    (
        "l:Library",
        ">\n<items xsi:type=\"l:Person\"/>",
        "BadType 'items' 2:1",
    ),
    (
        "l:Library",
        ">\n<best xsi:type=\"l:Library\"><none/></best>",
        "BadType 'best' 2:1",
    ),
];

#[test]
fn children_that_do_not_fit(rt: HostRuntime) -> Result<(), Fail> {
    assert_eq!(rt;
        first_wrong(rt.alloc(), CHILDREN_THAT_DO_NOT_FIT)?.as_str(),
        ""
    );
    Ok(())
}
