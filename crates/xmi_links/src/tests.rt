// Models of a metamodel of people: values, ids, paths and both ends of references, and the refusals of references.
use crate::read_model::read_model;
use doc_text::read_doc;
use doc_text::tree::Doc;
use ecore_meta::metamodel::Metamodel;
use shown::{show_model, show_refusal};
use small::is_small;
use std::alloc::Global;
use std::rc::Rc;
use std::test::Fail;
use xmi_read::laws::outline_is_within_its_document;
use xmi_read::read_metamodel::read_metamodel;

mod shown;
mod small;

const PEOPLE: &str =
    "<ecore:EPackage xmi:version=\"2.0\" xmlns:xmi=\"http://www.omg.org/XMI\" xmlns:xsi=\"http://www.w3.org/2001/XMLSchema-instance\" xmlns:ecore=\"http://www.eclipse.org/emf/2002/Ecore\" name=\"P\" nsURI=\"urn:p\" nsPrefix=\"p\">
<eClassifiers xsi:type=\"ecore:EClass\" name=\"Person\">
<eStructuralFeatures xsi:type=\"ecore:EAttribute\" name=\"key\" iD=\"true\" eType=\"ecore:EDataType http://www.eclipse.org/emf/2002/Ecore#//EIntegerObject\"/>
<eStructuralFeatures xsi:type=\"ecore:EAttribute\" name=\"age\" eType=\"ecore:EDataType http://www.eclipse.org/emf/2002/Ecore#//EInt\"/>
<eStructuralFeatures xsi:type=\"ecore:EAttribute\" name=\"tags\" upperBound=\"-1\" eType=\"ecore:EDataType http://www.eclipse.org/emf/2002/Ecore#//EString\"/>
<eStructuralFeatures xsi:type=\"ecore:EReference\" name=\"friends\" upperBound=\"-1\" eType=\"#//Person\" eOpposite=\"#//Person/friendOf\"/>
<eStructuralFeatures xsi:type=\"ecore:EReference\" name=\"friendOf\" upperBound=\"-1\" eType=\"#//Person\" eOpposite=\"#//Person/friends\"/>
<eStructuralFeatures xsi:type=\"ecore:EReference\" name=\"boss\" eType=\"#//Person\" eOpposite=\"#//Person/staff\"/>
<eStructuralFeatures xsi:type=\"ecore:EReference\" name=\"staff\" upperBound=\"-1\" eType=\"#//Person\" eOpposite=\"#//Person/boss\"/>
<eStructuralFeatures xsi:type=\"ecore:EReference\" name=\"kids\" upperBound=\"-1\" containment=\"true\" eType=\"#//Person\" eOpposite=\"#//Person/parent\"/>
<eStructuralFeatures xsi:type=\"ecore:EReference\" name=\"parent\" eType=\"#//Person\" eOpposite=\"#//Person/kids\"/>
<eStructuralFeatures xsi:type=\"ecore:EReference\" name=\"pet\" containment=\"true\" eType=\"#//Pet\"/>
</eClassifiers>
<eClassifiers xsi:type=\"ecore:EClass\" name=\"Pet\">
<eStructuralFeatures xsi:type=\"ecore:EReference\" name=\"likes\" upperBound=\"-1\" eType=\"#//Pet\"/>
</eClassifiers>
</ecore:EPackage>";

const HEAD: &str =
    " xmlns:xmi=\"http://www.omg.org/XMI\" xmlns:xsi=\"http://www.w3.org/2001/XMLSchema-instance\" xmlns:p=\"urn:p\"";

fn document(alloc: Global, text: &str) -> Result<Doc, Fail> {
    let bytes = text.as_bytes();
    if bytes.len() > 4294967294 {
        return Err(Fail::new("too long"));
    }
    Ok(read_doc(alloc, bytes)?)
}

fn people(alloc: Global) -> Result<Metamodel, Fail> {
    let doc = document(alloc, PEOPLE)?;
    if !is_small(&doc) {
        return Err(Fail::new("too large"));
    }
    outline_is_within_its_document();
    Ok(read_metamodel(alloc, &doc)?)
}

// What is read of a file: a root of this name, with what stands in its tag and behind it.
fn read(alloc: Global, root: &str, content: &str) -> Result<String, Fail> {
    let text = format!(in alloc; "<{}{}{}</{}>", root, HEAD, content, root)?;
    let doc = document(alloc, text.as_str())?;
    let meta = Rc::new(alloc, people(alloc)?)?;
    match read_model(alloc, &doc, meta) {
        Ok(model) => Ok(show_model(alloc, &model)?),
        Err(refusal) => Ok(show_refusal(alloc, &refusal)?),
    }
}

#[test]
fn values_and_contents(rt: HostRuntime) -> Result<(), Fail> {
    let alloc = rt.alloc();
    let shown = read(
        alloc,
        "p:Person",
        " key=\"007\" tags=\"a b\"><tags>c</tags><pet/><kids age=\"-1\"/><tags/><kids><kids/></kids>",
    );
    assert_eq!(rt;
        shown?.as_str(),
        "roots 0
0: class 0, 7, 0, 'a b' 'c' '',,,,, @2 @3,, @1
1: class 1,
2: class 0,, -1,,,,,,, @0,
3: class 0,, 0,,,,,, @4, @0,
4: class 0,, 0,,,,,,, @3,
"
    );
    Ok(())
}

#[test]
fn references_and_their_other_ends(rt: HostRuntime) -> Result<(), Fail> {
    let alloc = rt.alloc();
    let shown = read(
        alloc,
        "xmi:XMI",
        ">
<p:Person xmi:id=\"a\" friends=\"b /1 #b\" friendOf=\"#//2 /2\"/>
<p:Person xmi:id=\"b\" key=\"1\" friendOf=\"/2 a\" boss=\"1\"/>
<p:Person key=\"02\" staff=\"/0 #/2/@kids.00\" friends=\"a\"><kids parent=\"2\"/><pet likes=\"/2/@pet\"/></p:Person>
",
    );
    assert_eq!(rt; shown?.as_str(), "BadPath #//2 at 2:1");
    let shown = read(
        alloc,
        "xmi:XMI",
        ">
<p:Person xmi:id=\"a\" friends=\"b /1 #b\" friendOf=\"#/2 /2\"/>
<p:Person xmi:id=\"b\" key=\"1\" friendOf=\"/2 a\" boss=\"1\"/>
<p:Person key=\"02\" staff=\"/0 #/2/@kids.00\" friends=\"a\"><kids parent=\"2\"/><pet likes=\"/2/@pet\"/></p:Person>
",
    );
    assert_eq!(rt;
        shown?.as_str(),
        "roots 0 1 2
0: class 0,, 0,, @1, @2, @2,,,,
1: class 0, 1, 0,,, @2 @0, @1, @1,,,
2: class 0, 2, 0,, @0 @1,,, @0 @3, @3,, @4
3: class 0,, 0,,,, @2,,, @2,
4: class 1, @4
"
    );
    Ok(())
}

#[test]
fn an_object_bears_an_id_twice(rt: HostRuntime) -> Result<(), Fail> {
    let alloc = rt.alloc();
    let shown = read(alloc, "p:Person", " key=\"05\" xmi:id=\"5\" boss=\"#5\">");
    assert_eq!(rt;
        shown?.as_str(),
        "roots 0\n0: class 0, 5, 0,,,, @0, @0,,,\n"
    );
    Ok(())
}

#[test]
fn references_that_are_refused(rt: HostRuntime) -> Result<(), Fail> {
    let alloc = rt.alloc();
    let cases = [
        " friends=\"//@kids.0\"/>",
        " friends=\"nobody\"/>",
        " friends=\"#nobody x\"/>",
        " friends=\"x /9\"/>",
        " xmi:id=\"0\"><kids key=\"0\" boss=\"0\"/></p:Person>",
        "><pet likes=\"/0\"/></p:Person>",
        "><kids parent=\"/1\"/></p:Person>",
        " parent=\"/1\"/>",
        " staff=\"/1\"/><p:Person staff=\"/1\"/>",
        " boss=\"/2\"/><p:Person staff=\"/0\"/>",
        " boss=\"/1 /0\"/>",
    ];
    let mut shown = String::new(alloc);
    for i in 0..cases.len() {
        let text = format!(in alloc; ">\n<p:Person{}<p:Person/>", cases[i])?;
        shown.push_str(read(alloc, "xmi:XMI", text.as_str())?.as_str())?;
        shown.push_str("\n")?;
    }
    assert_eq!(rt;
        shown.as_str(),
        "BadPath //@kids.0 at 2:1
NoId nobody at 2:1
NoId #nobody at 2:1
BadPath /9 at 2:1
TwiceId 0 at 2:22
BadType /0 at 2:11
TwoContainers parent at 2:11
TwoContainers parent at 2:1
TwoEnds staff at 2:23
TwoEnds staff at 2:22
BadValue /0 at 2:1
"
    );
    Ok(())
}
