// Metamodels that are read: small ones, and one with what Eclipse writes.
use super::{read, read_package};
use std::test::Fail;

#[test]
fn nodes(rt: HostRuntime) -> Result<(), Fail> {
    let shown = read_package(
        rt.alloc(),
        "name=\"A\" nsURI=\"A\" nsPrefix=\"A\">\n<eClassifiers xsi:type=\"ecore:EClass\" name=\"Node\">\n<eStructuralFeatures xsi:type=\"ecore:EAttribute\" name=\"name\" eType=\"ecore:EDataType http://www.eclipse.org/emf/2002/Ecore#//EString\"/>\n<eStructuralFeatures xsi:type=\"ecore:EReference\" name=\"next\" eType=\"#//Node\"/>\n<eStructuralFeatures xsi:type=\"ecore:EReference\" name=\"kids\" upperBound=\"-1\" eType=\"#//Node\" containment=\"true\"/>\n</eClassifiers>\n",
    )?;
    assert_eq!(rt;
        shown.as_str(),
        "package A A A\nclass Node in 0 of with 0 1 2\nfeature name of 0: Str\nfeature next of 0: refers to 0\nfeature kids of 0: contains 0 many\n"
    );
    Ok(())
}

#[test]
fn items(rt: HostRuntime) -> Result<(), Fail> {
    let shown = read_package(
        rt.alloc(),
        "name=\"B\" nsURI=\"B\" nsPrefix=\"B\">\n<eClassifiers xsi:type=\"ecore:EClass\" name=\"Item\">\n<eStructuralFeatures xsi:type=\"ecore:EAttribute\" name=\"label\" eType=\"ecore:EDataType http://www.eclipse.org/emf/2002/Ecore#//EString\"/>\n<eStructuralFeatures xsi:type=\"ecore:EReference\" name=\"link\" eType=\"#//Item\"/>\n<eStructuralFeatures xsi:type=\"ecore:EReference\" name=\"parts\" upperBound=\"-1\" eType=\"#//Item\" containment=\"true\" eOpposite=\"#//Item/owner\"/>\n<eStructuralFeatures xsi:type=\"ecore:EReference\" name=\"owner\" eType=\"#//Item\" eOpposite=\"#//Item/parts\"/>\n</eClassifiers>\n",
    )?;
    assert_eq!(rt;
        shown.as_str(),
        "package B B B\nclass Item in 0 of with 0 1 2 3\nfeature label of 0: Str\nfeature link of 0: refers to 0\nfeature parts of 0: contains 0 opposite 3 many\nfeature owner of 0: refers to 0 opposite 2\n"
    );
    Ok(())
}

#[test]
fn boxes(rt: HostRuntime) -> Result<(), Fail> {
    let shown = read_package(
        rt.alloc(),
        "name=\"C\" nsURI=\"C\" nsPrefix=\"C\">\n<eClassifiers xsi:type=\"ecore:EClass\" name=\"Box\">\n<eStructuralFeatures xsi:type=\"ecore:EAttribute\" name=\"weight\" eType=\"ecore:EDataType http://www.eclipse.org/emf/2002/Ecore#//EDouble\"/>\n</eClassifiers>\n",
    )?;
    assert_eq!(rt;
        shown.as_str(),
        "package C C C\nclass Box in 0 of with 0\nfeature weight of 0: Opaque\n"
    );
    Ok(())
}

#[test]
fn a_prefix_is_found_among_many(rt: HostRuntime) -> Result<(), Fail> {
    let shown = read_package(
        rt.alloc(),
        "name=\"D\" nsURI=\"D\" nsPrefix=\"D\">\n<eClassifiers xmlns:p0=\"http://www.eclipse.org/emf/2002/Ecore\" xmlns:p1=\"http://www.eclipse.org/emf/2002/Ecore\" xmlns:p2=\"http://www.eclipse.org/emf/2002/Ecore\" xmlns:p3=\"http://www.eclipse.org/emf/2002/Ecore\" xmlns:p4=\"http://www.eclipse.org/emf/2002/Ecore\" xmlns:p5=\"http://other\" xmlns:p6=\"http://www.eclipse.org/emf/2002/Ecore\" xmlns:p7=\"http://www.eclipse.org/emf/2002/Ecore\" xmlns:p8=\"http://www.eclipse.org/emf/2002/Ecore\" xmlns:p9=\"http://www.eclipse.org/emf/2002/Ecore\" xmlns:p10=\"http://www.eclipse.org/emf/2002/Ecore\" xmlns:p11=\"http://www.eclipse.org/emf/2002/Ecore\" xmlns:p12=\"http://www.eclipse.org/emf/2002/Ecore\" xmlns:p13=\"http://www.eclipse.org/emf/2002/Ecore\" xmlns:p14=\"http://www.eclipse.org/emf/2002/Ecore\" xmlns:p15=\"http://www.eclipse.org/emf/2002/Ecore\" xmlns:p16=\"http://www.eclipse.org/emf/2002/Ecore\" xmlns:p17=\"http://www.eclipse.org/emf/2002/Ecore\" xsi:type=\"p3:EClass\" name=\"Item\">\n<eStructuralFeatures xsi:type=\"p17:EAttribute\" name=\"label\" eType=\"p9:EDataType http://www.eclipse.org/emf/2002/Ecore#//EString\"/>\n<eStructuralFeatures xsi:type=\"ecore:EReference\" name=\"link\" eType=\"#//Item\"/>\n</eClassifiers>\n",
    )?;
    assert_eq!(rt;
        shown.as_str(),
        "package D D D\nclass Item in 0 of with 0 1\nfeature label of 0: Str\nfeature link of 0: refers to 0\n"
    );
    Ok(())
}

#[test]
fn families_are_read(rt: HostRuntime) -> Result<(), Fail> {
    let shown = read_package(
        rt.alloc(),
        "name=\"Families\" nsURI=\"Families\" nsPrefix=\"Families\">\n<eClassifiers xsi:type=\"ecore:EClass\" name=\"Family\">\n<eStructuralFeatures xsi:type=\"ecore:EAttribute\" name=\"lastName\" eType=\"ecore:EDataType http://www.eclipse.org/emf/2002/Ecore#//EString\"/>\n<eStructuralFeatures xsi:type=\"ecore:EReference\" name=\"father\" eType=\"#//Member\" containment=\"true\" eOpposite=\"#//Member/familyFather\"/>\n<eStructuralFeatures xsi:type=\"ecore:EReference\" name=\"mother\" eType=\"#//Member\" containment=\"true\" eOpposite=\"#//Member/familyMother\"/>\n<eStructuralFeatures xsi:type=\"ecore:EReference\" name=\"sons\" upperBound=\"-1\" eType=\"#//Member\" containment=\"true\" eOpposite=\"#//Member/familySon\"/>\n<eStructuralFeatures xsi:type=\"ecore:EReference\" name=\"daughters\" upperBound=\"-1\" eType=\"#//Member\" containment=\"true\" eOpposite=\"#//Member/familyDaughter\"/>\n</eClassifiers>\n<eClassifiers xsi:type=\"ecore:EClass\" name=\"Member\">\n<eStructuralFeatures xsi:type=\"ecore:EAttribute\" name=\"firstName\" eType=\"ecore:EDataType http://www.eclipse.org/emf/2002/Ecore#//EString\"/>\n<eStructuralFeatures xsi:type=\"ecore:EReference\" name=\"familyFather\" eType=\"#//Family\" eOpposite=\"#//Family/father\"/>\n<eStructuralFeatures xsi:type=\"ecore:EReference\" name=\"familyMother\" eType=\"#//Family\" eOpposite=\"#//Family/mother\"/>\n<eStructuralFeatures xsi:type=\"ecore:EReference\" name=\"familySon\" eType=\"#//Family\" eOpposite=\"#//Family/sons\"/>\n<eStructuralFeatures xsi:type=\"ecore:EReference\" name=\"familyDaughter\" eType=\"#//Family\" eOpposite=\"#//Family/daughters\"/>\n</eClassifiers>\n",
    )?;
    assert_eq!(rt;
        shown.as_str(),
        "package Families Families Families\nclass Family in 0 of with 0 1 2 3 4\nclass Member in 0 of with 5 6 7 8 9\nfeature lastName of 0: Str\nfeature father of 0: contains 1 opposite 6\nfeature mother of 0: contains 1 opposite 7\nfeature sons of 0: contains 1 opposite 8 many\nfeature daughters of 0: contains 1 opposite 9 many\nfeature firstName of 1: Str\nfeature familyFather of 1: refers to 0 opposite 1\nfeature familyMother of 1: refers to 0 opposite 2\nfeature familySon of 1: refers to 0 opposite 3\nfeature familyDaughter of 1: refers to 0 opposite 4\n"
    );
    Ok(())
}

#[test]
fn persons_are_read(rt: HostRuntime) -> Result<(), Fail> {
    let shown = read_package(
        rt.alloc(),
        "name=\"Persons\" nsURI=\"Persons\" nsPrefix=\"Persons\">\n<eClassifiers xsi:type=\"ecore:EClass\" name=\"Person\" abstract=\"true\">\n<eStructuralFeatures xsi:type=\"ecore:EAttribute\" name=\"fullName\" eType=\"ecore:EDataType http://www.eclipse.org/emf/2002/Ecore#//EString\"/>\n</eClassifiers>\n<eClassifiers xsi:type=\"ecore:EClass\" name=\"Male\" eSuperTypes=\"#//Person\"/>\n<eClassifiers xsi:type=\"ecore:EClass\" name=\"Female\" eSuperTypes=\"#//Person\"/>\n",
    )?;
    assert_eq!(rt;
        shown.as_str(),
        "package Persons Persons Persons\nabstract Person in 0 of with 0\nclass Male in 0 of 0 with\nclass Female in 0 of 0 with\nfeature fullName of 0: Str\n"
    );
    Ok(())
}

#[test]
fn a_library(rt: HostRuntime) -> Result<(), Fail> {
    let shown = read_package(
        rt.alloc(),
        "name=\"library\" nsURI=\"http://www.example.org/library\" nsPrefix=\"lib\">\n<eAnnotations source=\"http://www.eclipse.org/emf/2002/GenModel\">\n<details key=\"documentation\" value=\"What it is.\"/>\n</eAnnotations>\n<eClassifiers xsi:type=\"ecore:EEnum\" name=\"Kind\">\n<eAnnotations source=\"http://www.eclipse.org/emf/2002/GenModel\">\n<details key=\"documentation\" value=\"What it is.\"/>\n</eAnnotations>\n<eLiterals name=\"novel\" literal=\"a novel\"/>\n<eLiterals name=\"poem\" value=\"7\"/>\n</eClassifiers>\n<eClassifiers xsi:type=\"ecore:EDataType\" name=\"Year\" instanceClassName=\"int\"/>\n<eClassifiers xsi:type=\"ecore:EDataType\" name=\"Date\" instanceClassName=\"java.util.Date\"/>\n<eClassifiers xsi:type=\"ecore:EClass\" name=\"Named\" abstract=\"true\" interface=\"true\">\n<eStructuralFeatures xsi:type=\"ecore:EAttribute\" name=\"name\" lowerBound=\"1\" eType=\"ecore:EDataType http://www.eclipse.org/emf/2002/Ecore#//EString\" iD=\"true\"/>\n<eOperations name=\"rename\" lowerBound=\"1\" eType=\"ecore:EDataType http://www.eclipse.org/emf/2002/Ecore#//EBoolean\">\n<eParameters name=\"to\" eType=\"ecore:EDataType http://www.eclipse.org/emf/2002/Ecore#//EString\"/>\n</eOperations>\n</eClassifiers>\n<eClassifiers xsi:type=\"ecore:EClass\" name=\"Dated\" interface=\"true\">\n<eStructuralFeatures xsi:type=\"ecore:EAttribute\" name=\"year\" eType=\"#//Year\" defaultValueLiteral=\"1900\"/>\n<eStructuralFeatures xsi:type=\"ecore:EAttribute\" name=\"bought\" eType=\"//Date\"/>\n</eClassifiers>\n<eClassifiers xsi:type=\"ecore:EClass\" name=\"Book\" eSuperTypes=\"#//Named #//Dated\">\n<eAnnotations source=\"http://www.eclipse.org/emf/2002/GenModel\">\n<details key=\"documentation\" value=\"What it is.\"/>\n</eAnnotations>\n<eStructuralFeatures xsi:type=\"ecore:EAttribute\" name=\"kind\" eType=\"#//Kind\"/>\n<eStructuralFeatures xsi:type=\"ecore:EAttribute\" name=\"kinds\" upperBound=\"3\" unique=\"false\" eType=\"#//Kind\" defaultValueLiteral=\"poem\"/>\n<eStructuralFeatures xsi:type=\"ecore:EAttribute\" name=\"title\" eType=\"ecore:EDataType http://www.eclipse.org/emf/2002/Ecore#//EString\" derived=\"true\" volatile=\"true\" transient=\"true\"/>\n<eStructuralFeatures xsi:type=\"ecore:EAttribute\" name=\"pages\" eType=\"ecore:EDataType http://www.eclipse.org/emf/2002/Ecore#//EInt\"/>\n<eStructuralFeatures xsi:type=\"ecore:EAttribute\" name=\"lent\" eType=\"ecore:EDataType http://www.eclipse.org/emf/2002/Ecore#//EBoolean\"/>\n<eStructuralFeatures xsi:type=\"ecore:EReference\" name=\"shelf\" eType=\"#//Shelf\" eOpposite=\"#//Shelf/books\"/>\n</eClassifiers>\n<eClassifiers xsi:type=\"ecore:EClass\" name=\"Shelf\">\n<eStructuralFeatures xsi:type=\"ecore:EReference\" name=\"books\" upperBound=\"-1\" containment=\"true\" eOpposite=\"//Book/shelf\">\n<eType xsi:type=\"ecore:EClass\" href=\"#//Book\"/>\n</eStructuralFeatures>\n<eStructuralFeatures xsi:type=\"ecore:EAttribute\" name=\"label\" upperBound=\"-2\">\n<eType xsi:type=\"ecore:EDataType\" href=\"http://www.eclipse.org/emf/2002/Ecore#//EString\"/>\n</eStructuralFeatures>\n<eStructuralFeatures xsi:type=\"ecore:EReference\" name=\"first\" eType=\"#//Book\" derived=\"true\"/>\n</eClassifiers>\n<eClassifiers xsi:type=\"ecore:EClass\" name=\"Special\">\n<eSuperTypes href=\"#//Book\"/>\n<eSuperTypes href=\"#/0/Shelf\"/>\n</eClassifiers>\n",
    )?;
    assert_eq!(rt;
        shown.as_str(),
        "package library http://www.example.org/library lib\nabstract Named in 0 of with 0\nabstract Dated in 0 of with 1 2\nclass Book in 0 of 0 1 with 3 4 5 6 7\nclass Shelf in 0 of with 8 9\nclass Special in 0 of 2 3 with\nfeature name of 0: Str id\nfeature year of 1: Int default '1900'\nfeature bought of 1: Opaque\nfeature kind of 2: Enum 0 default 'a novel'\nfeature kinds of 2: Enum 0 many not unique default 'poem'\nfeature pages of 2: Int default '0'\nfeature lent of 2: Truth default 'false'\nfeature shelf of 2: refers to 3 opposite 8\nfeature books of 3: contains 2 opposite 7 many\nfeature label of 3: Str\nenum Kind: novel='a novel' poem='poem'\nskipped title of 2\nskipped first of 3\n"
    );
    Ok(())
}

#[test]
fn two_packages(rt: HostRuntime) -> Result<(), Fail> {
    let shown = read(
        rt.alloc(),
        "<xmi:XMI xmi:version=\"2.0\" xmlns:xmi=\"http://www.omg.org/XMI\" xmlns:xsi=\"http://www.w3.org/2001/XMLSchema-instance\" xmlns:ecore=\"http://www.eclipse.org/emf/2002/Ecore\">\n<ecore:EPackage name=\"p\">\n<eClassifiers xsi:type=\"ecore:EClass\" name=\"A\">\n<eStructuralFeatures xsi:type=\"ecore:EReference\" name=\"b\" eType=\"#/1/B\"/>\n</eClassifiers>\n</ecore:EPackage>\n<ecore:EPackage name=\"q\" nsURI=\"\" nsPrefix=\"qq\">\n<eClassifiers xsi:type=\"ecore:EClass\" name=\"B\" eSuperTypes=\"/p/A\"/>\n<eClassifiers xsi:type=\"ecore:EEnum\" name=\"E\"/>\n</ecore:EPackage>\n</xmi:XMI>",
    )?;
    assert_eq!(rt;
        shown.as_str(),
        "package p p p\npackage q q qq\nclass A in 0 of with 0\nclass B in 1 of 0 with\nfeature b of 0: refers to 1\nenum E:\n"
    );
    Ok(())
}

#[test]
fn a_real_feature_goes_first(rt: HostRuntime) -> Result<(), Fail> {
    let shown = read_package(
        rt.alloc(),
        "name=\"P\" nsURI=\"P\" nsPrefix=\"P\">\n<eClassifiers xsi:type=\"ecore:EClass\" name=\"A\">\n<eStructuralFeatures xsi:type=\"ecore:EReference\" name=\"b\" eType=\"#//B\" eOpposite=\"#//B/a\"/>\n<eStructuralFeatures xsi:type=\"ecore:EReference\" name=\"c\" eType=\"#//B\" eOpposite=\"#//B/none\"/>\n</eClassifiers>\n<eClassifiers xsi:type=\"ecore:EClass\" name=\"B\">\n<eStructuralFeatures xsi:type=\"ecore:EReference\" name=\"a\" derived=\"true\"/>\n<eStructuralFeatures xsi:type=\"ecore:EReference\" name=\"a\" eType=\"#//A\" eOpposite=\"#//A/b\"/>\n<eStructuralFeatures xsi:type=\"ecore:EReference\" name=\"a\" volatile=\"true\"/>\n<eStructuralFeatures xsi:type=\"ecore:EReference\" name=\"none\" transient=\"true\"/>\n</eClassifiers>\n",
    )?;
    assert_eq!(rt;
        shown.as_str(),
        "package P P P\nclass A in 0 of with 0 1\nclass B in 0 of with 2\nfeature b of 0: refers to 1 opposite 2\nfeature c of 0: refers to 1\nfeature a of 1: refers to 0 opposite 0\nskipped a of 1\nskipped a of 1\nskipped none of 1\n"
    );
    Ok(())
}
