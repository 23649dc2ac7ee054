// Metamodels that are refused: the kind, the value and the place.
use super::read_package;
use std::test::Fail;

#[test]
fn what_is_not_of_the_form(rt: HostRuntime) -> Result<(), Fail> {
    let cases = [
        (
            "name=\"P\" nsURI=\"P\" nsPrefix=\"P\">\n<eThings name=\"x\"/>\n",
            "NotEcore 'eThings' 2:1",
        ),
        (
            "name=\"P\" nsURI=\"P\" nsPrefix=\"P\">\n<eClassifiers xsi:type=\"ecore:EThing\" name=\"x\"/>\n",
            "NotEcore 'eClassifiers' 2:1",
        ),
        (
            "name=\"P\" nsURI=\"P\" nsPrefix=\"P\">\n<eClassifiers xsi:type=\"ecore:EClass\" name=\"1N\"/>\n",
            "NotEcore 'eClassifiers' 2:1",
        ),
        (
            "name=\"P\" nsURI=\"P\" nsPrefix=\"P\">\n<eClassifiers xsi:type=\"ecore:EClass\" name=\"N\" abstract=\"yes\"/>\n",
            "NotEcore 'eClassifiers' 2:1",
        ),
        (
            "name=\"P\" nsURI=\"P\" nsPrefix=\"P\">\n<eClassifiers xsi:type=\"ecore:EClass\" name=\"N\">\nwords\n</eClassifiers>\n",
            "NotEcore 'eClassifiers' 2:1",
        ),
        (
            "name=\"P\" nsURI=\"P\" nsPrefix=\"P\">\n<eClassifiers xsi:type=\"ecore:EClass\" name=\"N\">\n<eStructuralFeatures xsi:type=\"ecore:EAttribute\" name=\"a.b\" eType=\"ecore:EDataType http://www.eclipse.org/emf/2002/Ecore#//EString\"/>\n</eClassifiers>\n",
            "NotEcore 'eStructuralFeatures' 3:1",
        ),
        (
            "name=\"P\" nsURI=\"P\" nsPrefix=\"P\">\n<eClassifiers xsi:type=\"ecore:EClass\" name=\"N\">\n<eStructuralFeatures xsi:type=\"ecore:EReference\" name=\"r\" eType=\"#//N\">\n<eType href=\"#//N\"/>\n</eStructuralFeatures>\n</eClassifiers>\n",
            "NotEcore 'eType' 4:1",
        ),
        (
            "name=\"P\" nsURI=\"P\" nsPrefix=\"P\">\n<eClassifiers xsi:type=\"ecore:EClass\" name=\"N\">\n<eStructuralFeatures xsi:type=\"ecore:EReference\" name=\"r\">\n<eType/>\n<eType href=\"#//N\"/>\n</eStructuralFeatures>\n</eClassifiers>\n",
            "NotEcore 'eType' 4:1",
        ),
        (
            "name=\"P\" nsURI=\"P\" nsPrefix=\"P\">\n<eClassifiers xsi:type=\"ecore:EClass\" name=\"N\">\n<eStructuralFeatures xsi:type=\"ecore:EAttribute\" name=\"a\" derived=\"true\">\n<eType/>\n</eStructuralFeatures>\n</eClassifiers>\n",
            "NotEcore 'eType' 4:1",
        ),
        (
            "name=\"P\" nsURI=\"P\" nsPrefix=\"xsi\">\n<eClassifiers xsi:type=\"ecore:EClass\" name=\"N\"/>\n",
            "NotEcore 'EPackage' 1:1",
        ),
    ];
    for (content, told) in cases {
        let shown = read_package(rt.alloc(), content)?;
        assert_eq!(rt; shown.as_str(), told);
    }
    Ok(())
}

#[test]
fn packages_in_packages(rt: HostRuntime) -> Result<(), Fail> {
    let cases = [(
        "name=\"P\" nsURI=\"P\" nsPrefix=\"P\">\n<eClassifiers xsi:type=\"ecore:EClass\" name=\"N\"/>\n<eSubpackages name=\"q\"/>\n",
        "SubPackage 'eSubpackages' 3:1",
    )];
    for (content, told) in cases {
        let shown = read_package(rt.alloc(), content)?;
        assert_eq!(rt; shown.as_str(), told);
    }
    Ok(())
}

#[test]
fn generics(rt: HostRuntime) -> Result<(), Fail> {
    let cases = [
        (
            "name=\"P\" nsURI=\"P\" nsPrefix=\"P\">\n<eClassifiers xsi:type=\"ecore:EClass\" name=\"N\">\n<eTypeParameters name=\"T\"/>\n</eClassifiers>\n",
            "Generic 'eTypeParameters' 2:1",
        ),
        (
            "name=\"P\" nsURI=\"P\" nsPrefix=\"P\">\n<eClassifiers xsi:type=\"ecore:EClass\" name=\"N\">\n<eStructuralFeatures xsi:type=\"ecore:EReference\" name=\"r\" eType=\"#//N\">\n<eGenericType eClassifier=\"#//N\"/>\n</eStructuralFeatures>\n</eClassifiers>\n",
            "Generic 'eGenericType' 3:1",
        ),
        (
            "name=\"P\" nsURI=\"P\" nsPrefix=\"P\">\n<eClassifiers xsi:type=\"ecore:EClass\" name=\"N\">\n<eGenericSuperTypes eClassifier=\"#//N\"/>\n</eClassifiers>\n",
            "Generic 'eGenericSuperTypes' 2:1",
        ),
    ];
    for (content, told) in cases {
        let shown = read_package(rt.alloc(), content)?;
        assert_eq!(rt; shown.as_str(), told);
    }
    Ok(())
}

#[test]
fn what_has_no_name(rt: HostRuntime) -> Result<(), Fail> {
    let cases = [
        (
            "name=\"P\" nsURI=\"P\" nsPrefix=\"P\">\n<eClassifiers xsi:type=\"ecore:EClass\" abstract=\"true\"/>\n",
            "NoName 'eClassifiers' 2:1",
        ),
        (
            "name=\"P\" nsURI=\"P\" nsPrefix=\"P\">\n<eClassifiers xsi:type=\"ecore:EClass\" name=\"N\">\n<eStructuralFeatures xsi:type=\"ecore:EAttribute\" name=\"\" eType=\"ecore:EDataType http://www.eclipse.org/emf/2002/Ecore#//EString\"/>\n</eClassifiers>\n",
            "NoName 'eStructuralFeatures' 3:1",
        ),
        (
            "nsURI=\"P\" nsPrefix=\"P\">\n<eClassifiers xsi:type=\"ecore:EClass\" name=\"N\"/>\n",
            "NoName 'EPackage' 1:1",
        ),
    ];
    for (content, told) in cases {
        let shown = read_package(rt.alloc(), content)?;
        assert_eq!(rt; shown.as_str(), told);
    }
    Ok(())
}

#[test]
fn names_that_stand_twice(rt: HostRuntime) -> Result<(), Fail> {
    let cases = [
        (
            "name=\"P\" nsURI=\"P\" nsPrefix=\"P\">\n<eClassifiers xsi:type=\"ecore:EClass\" name=\"N\"/>\n<eClassifiers xsi:type=\"ecore:EClass\" name=\"M\"/>\n<eClassifiers xsi:type=\"ecore:EClass\" name=\"N\"/>\n",
            "TwiceName 'N' 4:1",
        ),
        (
            "name=\"P\" nsURI=\"P\" nsPrefix=\"P\">\n<eClassifiers xsi:type=\"ecore:EClass\" name=\"N\"/>\n<eClassifiers xsi:type=\"ecore:EDataType\" name=\"N\"/>\n",
            "TwiceName 'N' 3:1",
        ),
        (
            "name=\"P\" nsURI=\"P\" nsPrefix=\"P\">\n<eClassifiers xsi:type=\"ecore:EEnum\" name=\"E\">\n<eLiterals name=\"a\"/>\n<eLiterals name=\"a\" literal=\"b\"/>\n</eClassifiers>\n",
            "TwiceName 'a' 4:1",
        ),
        (
            "name=\"P\" nsURI=\"P\" nsPrefix=\"P\">\n<eClassifiers xsi:type=\"ecore:EEnum\" name=\"E\">\n<eLiterals name=\"a\"/>\n<eLiterals name=\"b\" literal=\"a\"/>\n</eClassifiers>\n",
            "TwiceName 'b' 4:1",
        ),
        (
            "name=\"P\" nsURI=\"P\" nsPrefix=\"P\">\n<eClassifiers xsi:type=\"ecore:EClass\" name=\"A\">\n<eStructuralFeatures xsi:type=\"ecore:EAttribute\" name=\"f\" eType=\"ecore:EDataType http://www.eclipse.org/emf/2002/Ecore#//EString\"/>\n</eClassifiers>\n<eClassifiers xsi:type=\"ecore:EClass\" name=\"B\">\n<eStructuralFeatures xsi:type=\"ecore:EAttribute\" name=\"f\" eType=\"ecore:EDataType http://www.eclipse.org/emf/2002/Ecore#//EString\"/>\n</eClassifiers>\n<eClassifiers xsi:type=\"ecore:EClass\" name=\"C\" eSuperTypes=\"#//A #//B\"/>\n",
            "TwiceName 'f' 8:1",
        ),
        (
            "name=\"P\" nsURI=\"P\" nsPrefix=\"P\">\n<eClassifiers xsi:type=\"ecore:EClass\" name=\"A\">\n<eStructuralFeatures xsi:type=\"ecore:EAttribute\" name=\"f\" eType=\"ecore:EDataType http://www.eclipse.org/emf/2002/Ecore#//EString\"/>\n<eStructuralFeatures xsi:type=\"ecore:EAttribute\" name=\"f\" eType=\"ecore:EDataType http://www.eclipse.org/emf/2002/Ecore#//EString\"/>\n</eClassifiers>\n",
            "TwiceName 'f' 2:1",
        ),
    ];
    for (content, told) in cases {
        let shown = read_package(rt.alloc(), content)?;
        assert_eq!(rt; shown.as_str(), told);
    }
    Ok(())
}

#[test]
fn other_files(rt: HostRuntime) -> Result<(), Fail> {
    let cases = [
        (
            "name=\"P\" nsURI=\"P\" nsPrefix=\"P\">\n<eClassifiers xsi:type=\"ecore:EClass\" name=\"N\" eSuperTypes=\"#//M other.ecore#//M\"/>\n",
            "OtherFile 'other.ecore#//M' 2:1",
        ),
        (
            "name=\"P\" nsURI=\"P\" nsPrefix=\"P\">\n<eClassifiers xsi:type=\"ecore:EClass\" name=\"N\">\n<eSuperTypes href=\"other.ecore#//M\"/>\n</eClassifiers>\n",
            "OtherFile 'other.ecore#//M' 3:1",
        ),
        (
            "name=\"P\" nsURI=\"P\" nsPrefix=\"P\">\n<eClassifiers xsi:type=\"ecore:EClass\" name=\"N\">\n<eStructuralFeatures xsi:type=\"ecore:EReference\" name=\"r\" eType=\"ecore:EClass other.ecore#//M\"/>\n</eClassifiers>\n",
            "OtherFile 'other.ecore#//M' 3:1",
        ),
        (
            "name=\"P\" nsURI=\"P\" nsPrefix=\"P\">\n<eClassifiers xsi:type=\"ecore:EClass\" name=\"N\">\n<eStructuralFeatures xsi:type=\"ecore:EReference\" name=\"r\">\n<eType href=\"other.ecore#//M\"/>\n</eStructuralFeatures>\n</eClassifiers>\n",
            "OtherFile 'other.ecore#//M' 4:1",
        ),
    ];
    for (content, told) in cases {
        let shown = read_package(rt.alloc(), content)?;
        assert_eq!(rt; shown.as_str(), told);
    }
    Ok(())
}

#[test]
fn types_that_are_none(rt: HostRuntime) -> Result<(), Fail> {
    let cases = [
        (
            "name=\"P\" nsURI=\"P\" nsPrefix=\"P\">\n<eClassifiers xsi:type=\"ecore:EClass\" name=\"N\">\n<eStructuralFeatures xsi:type=\"ecore:EAttribute\" name=\"a\"/>\n</eClassifiers>\n",
            "NoType '' 3:1",
        ),
        (
            "name=\"P\" nsURI=\"P\" nsPrefix=\"P\">\n<eClassifiers xsi:type=\"ecore:EClass\" name=\"N\">\n<eStructuralFeatures xsi:type=\"ecore:EReference\" name=\"r\" eType=\"#//M\"/>\n</eClassifiers>\n",
            "NoType '#//M' 3:1",
        ),
        (
            "name=\"P\" nsURI=\"P\" nsPrefix=\"P\">\n<eClassifiers xsi:type=\"ecore:EClass\" name=\"N\">\n<eStructuralFeatures xsi:type=\"ecore:EAttribute\" name=\"a\" eType=\"#//N\"/>\n</eClassifiers>\n",
            "NoType '#//N' 3:1",
        ),
        (
            "name=\"P\" nsURI=\"P\" nsPrefix=\"P\">\n<eClassifiers xsi:type=\"ecore:EClass\" name=\"N\" eSuperTypes=\"#//M\"/>\n",
            "NoType '#//M' 2:1",
        ),
        (
            "name=\"P\" nsURI=\"P\" nsPrefix=\"P\">\n<eClassifiers xsi:type=\"ecore:EClass\" name=\"N\">\n<eStructuralFeatures xsi:type=\"ecore:EReference\" name=\"r\" eType=\"ecore:EDataType http://www.eclipse.org/emf/2002/Ecore#//EString\"/>\n</eClassifiers>\n",
            "NoType 'ecore:EDataType http://www.eclipse.org/emf/2002/Ecore#//EString' 3:1",
        ),
        (
            "name=\"P\" nsURI=\"P\" nsPrefix=\"P\">\n<eClassifiers xsi:type=\"ecore:EClass\" name=\"N\">\n<eStructuralFeatures xsi:type=\"ecore:EReference\" name=\"r\" eType=\"#//\"/>\n</eClassifiers>\n<eClassifiers xsi:type=\"ecore:EClass\"/>\n",
            "NoType '#//' 3:1",
        ),
        (
            "name=\"P\" nsURI=\"P\" nsPrefix=\"P\">\n<eClassifiers xsi:type=\"ecore:EClass\" name=\"N\">\n<eStructuralFeatures xsi:type=\"ecore:EReference\" name=\"r\"/>\n<eType href=\"#//N\"/>\n</eClassifiers>\n",
            "NoType '' 3:1",
        ),
    ];
    for (content, told) in cases {
        let shown = read_package(rt.alloc(), content)?;
        assert_eq!(rt; shown.as_str(), told);
    }
    Ok(())
}

#[test]
fn cycles_of_supertypes(rt: HostRuntime) -> Result<(), Fail> {
    let cases = [
        (
            "name=\"P\" nsURI=\"P\" nsPrefix=\"P\">\n<eClassifiers xsi:type=\"ecore:EClass\" name=\"A\" eSuperTypes=\"#//A\"/>\n",
            "SuperCycle 'A' 2:1",
        ),
        (
            "name=\"P\" nsURI=\"P\" nsPrefix=\"P\">\n<eClassifiers xsi:type=\"ecore:EClass\" name=\"D\" eSuperTypes=\"#//A\"/>\n<eClassifiers xsi:type=\"ecore:EClass\" name=\"A\" eSuperTypes=\"#//B\"/>\n<eClassifiers xsi:type=\"ecore:EClass\" name=\"B\" eSuperTypes=\"#//C\"/>\n<eClassifiers xsi:type=\"ecore:EClass\" name=\"C\" eSuperTypes=\"#//A\"/>\n",
            "SuperCycle 'A' 3:1",
        ),
    ];
    for (content, told) in cases {
        let shown = read_package(rt.alloc(), content)?;
        assert_eq!(rt; shown.as_str(), told);
    }
    Ok(())
}

#[test]
fn opposites_that_do_not_fit(rt: HostRuntime) -> Result<(), Fail> {
    let cases = [
        (
            "name=\"P\" nsURI=\"P\" nsPrefix=\"P\">\n<eClassifiers xsi:type=\"ecore:EClass\" name=\"A\">\n<eStructuralFeatures xsi:type=\"ecore:EReference\" name=\"b\" eType=\"#//B\" eOpposite=\"#//B/a\"/>\n</eClassifiers>\n<eClassifiers xsi:type=\"ecore:EClass\" name=\"B\">\n<eStructuralFeatures xsi:type=\"ecore:EReference\" name=\"a\" eType=\"#//A\"/>\n</eClassifiers>\n<eClassifiers xsi:type=\"ecore:EClass\" name=\"C\"/>\n",
            "BadOpposite 'b' 3:1",
        ),
        (
            "name=\"P\" nsURI=\"P\" nsPrefix=\"P\">\n<eClassifiers xsi:type=\"ecore:EClass\" name=\"A\">\n<eStructuralFeatures xsi:type=\"ecore:EReference\" name=\"b\" eType=\"#//B\" eOpposite=\"#//B/x\"/>\n</eClassifiers>\n<eClassifiers xsi:type=\"ecore:EClass\" name=\"B\">\n<eStructuralFeatures xsi:type=\"ecore:EReference\" name=\"a\" eType=\"#//A\"/>\n</eClassifiers>\n<eClassifiers xsi:type=\"ecore:EClass\" name=\"C\"/>\n",
            "BadOpposite 'b' 3:1",
        ),
        (
            "name=\"P\" nsURI=\"P\" nsPrefix=\"P\">\n<eClassifiers xsi:type=\"ecore:EClass\" name=\"A\">\n<eStructuralFeatures xsi:type=\"ecore:EReference\" name=\"b\" eType=\"#//B\" containment=\"true\" eOpposite=\"#//B/a\"/>\n</eClassifiers>\n<eClassifiers xsi:type=\"ecore:EClass\" name=\"B\">\n<eStructuralFeatures xsi:type=\"ecore:EReference\" name=\"a\" eType=\"#//A\" containment=\"true\" eOpposite=\"#//A/b\"/>\n</eClassifiers>\n<eClassifiers xsi:type=\"ecore:EClass\" name=\"C\"/>\n",
            "BadOpposite 'b' 3:1",
        ),
        (
            "name=\"P\" nsURI=\"P\" nsPrefix=\"P\">\n<eClassifiers xsi:type=\"ecore:EClass\" name=\"A\">\n<eStructuralFeatures xsi:type=\"ecore:EReference\" name=\"b\" eType=\"#//C\" eOpposite=\"#//B/a\"/>\n</eClassifiers>\n<eClassifiers xsi:type=\"ecore:EClass\" name=\"B\">\n<eStructuralFeatures xsi:type=\"ecore:EReference\" name=\"a\" eType=\"#//A\" eOpposite=\"#//A/b\"/>\n</eClassifiers>\n<eClassifiers xsi:type=\"ecore:EClass\" name=\"C\"/>\n",
            "BadOpposite 'b' 3:1",
        ),
        (
            "name=\"P\" nsURI=\"P\" nsPrefix=\"P\">\n<eClassifiers xsi:type=\"ecore:EClass\" name=\"A\">\n<eStructuralFeatures xsi:type=\"ecore:EReference\" name=\"b\" eType=\"#//B\" eOpposite=\"other.ecore#//B/a\"/>\n</eClassifiers>\n<eClassifiers xsi:type=\"ecore:EClass\" name=\"B\">\n<eStructuralFeatures xsi:type=\"ecore:EReference\" name=\"a\" eType=\"#//A\" eOpposite=\"#//A/b\"/>\n</eClassifiers>\n<eClassifiers xsi:type=\"ecore:EClass\" name=\"C\"/>\n",
            "BadOpposite 'b' 3:1",
        ),
        (
            "name=\"P\" nsURI=\"P\" nsPrefix=\"P\">\n<eClassifiers xsi:type=\"ecore:EClass\" name=\"A\">\n<eStructuralFeatures xsi:type=\"ecore:EReference\" name=\"b\" eType=\"#//A\" eOpposite=\"#//A/\"/>\n<eStructuralFeatures xsi:type=\"ecore:EReference\" derived=\"true\"/>\n</eClassifiers>\n",
            "BadOpposite 'b' 3:1",
        ),
    ];
    for (content, told) in cases {
        let shown = read_package(rt.alloc(), content)?;
        assert_eq!(rt; shown.as_str(), told);
    }
    Ok(())
}

#[test]
fn bounds_and_defaults(rt: HostRuntime) -> Result<(), Fail> {
    let cases = [
        (
            "name=\"P\" nsURI=\"P\" nsPrefix=\"P\">\n<eClassifiers xsi:type=\"ecore:EEnum\" name=\"E\">\n<eLiterals name=\"a\" literal=\"an a\"/>\n</eClassifiers>\n<eClassifiers xsi:type=\"ecore:EClass\" name=\"N\">\n<eStructuralFeatures xsi:type=\"ecore:EAttribute\" name=\"a\" upperBound=\"0\" eType=\"ecore:EDataType http://www.eclipse.org/emf/2002/Ecore#//EString\"/>\n</eClassifiers>\n",
            "BadNumber '0' 6:1",
        ),
        (
            "name=\"P\" nsURI=\"P\" nsPrefix=\"P\">\n<eClassifiers xsi:type=\"ecore:EEnum\" name=\"E\">\n<eLiterals name=\"a\" literal=\"an a\"/>\n</eClassifiers>\n<eClassifiers xsi:type=\"ecore:EClass\" name=\"N\">\n<eStructuralFeatures xsi:type=\"ecore:EAttribute\" name=\"a\" upperBound=\"-3\" eType=\"ecore:EDataType http://www.eclipse.org/emf/2002/Ecore#//EString\"/>\n</eClassifiers>\n",
            "BadNumber '-3' 6:1",
        ),
        (
            "name=\"P\" nsURI=\"P\" nsPrefix=\"P\">\n<eClassifiers xsi:type=\"ecore:EEnum\" name=\"E\">\n<eLiterals name=\"a\" literal=\"an a\"/>\n</eClassifiers>\n<eClassifiers xsi:type=\"ecore:EClass\" name=\"N\">\n<eStructuralFeatures xsi:type=\"ecore:EAttribute\" name=\"a\" upperBound=\"many\" eType=\"ecore:EDataType http://www.eclipse.org/emf/2002/Ecore#//EString\"/>\n</eClassifiers>\n",
            "BadNumber 'many' 6:1",
        ),
        (
            "name=\"P\" nsURI=\"P\" nsPrefix=\"P\">\n<eClassifiers xsi:type=\"ecore:EEnum\" name=\"E\">\n<eLiterals name=\"a\" literal=\"an a\"/>\n</eClassifiers>\n<eClassifiers xsi:type=\"ecore:EClass\" name=\"N\">\n<eStructuralFeatures xsi:type=\"ecore:EAttribute\" name=\"a\" defaultValueLiteral=\"9223372036854775808\" eType=\"ecore:EDataType http://www.eclipse.org/emf/2002/Ecore#//EInt\"/>\n</eClassifiers>\n",
            "BadNumber '9223372036854775808' 6:1",
        ),
        (
            "name=\"P\" nsURI=\"P\" nsPrefix=\"P\">\n<eClassifiers xsi:type=\"ecore:EEnum\" name=\"E\">\n<eLiterals name=\"a\" literal=\"an a\"/>\n</eClassifiers>\n<eClassifiers xsi:type=\"ecore:EClass\" name=\"N\">\n<eStructuralFeatures xsi:type=\"ecore:EAttribute\" name=\"a\" defaultValueLiteral=\"yes\" eType=\"ecore:EDataType http://www.eclipse.org/emf/2002/Ecore#//EBoolean\"/>\n</eClassifiers>\n",
            "BadNumber 'yes' 6:1",
        ),
        (
            "name=\"P\" nsURI=\"P\" nsPrefix=\"P\">\n<eClassifiers xsi:type=\"ecore:EEnum\" name=\"E\">\n<eLiterals name=\"a\" literal=\"an a\"/>\n</eClassifiers>\n<eClassifiers xsi:type=\"ecore:EClass\" name=\"N\">\n<eStructuralFeatures xsi:type=\"ecore:EAttribute\" name=\"a\" defaultValueLiteral=\"a\" eType=\"#//E\"/>\n</eClassifiers>\n",
            "BadNumber 'a' 6:1",
        ),
    ];
    for (content, told) in cases {
        let shown = read_package(rt.alloc(), content)?;
        assert_eq!(rt; shown.as_str(), told);
    }
    Ok(())
}
