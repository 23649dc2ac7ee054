// That what a file tells is text. Each `Text` is one by its type; a contract learns it where the text is looked at.
ghost use Rattle.xmi_text.specs.Markup.{sub_elements};
ghost use Rattle.ecore_outline.specs.Entries.{entries_of};
ghost use Rattle.ecore_outline.specs.Texts.{AreAttributeTexts, AreNameTexts, IsElementText, AreTexts};

use crate::outline::Entry;
use doc_text::tree::{Attribute, Child, Element};

fn know_attributes(attributes: &[Attribute])
    ensures { AreAttributeTexts attributes.now }
{
    for i in 0..attributes.len() {
        let attribute = &attributes[i];
        let _name = attribute.name.as_str();
        let _value = attribute.value.as_str();
    }
}

fn know_children(children: &[Child])
    ensures { AreNameTexts (sub_elements children.now) }
{
    for i in 0..children.len() {
        match &children[i] {
            Child::Sub(element) => {
                let _name = element.name.as_str();
            }
            Child::Words(_) => {}
        }
    }
}

fn know_element(element: &Element)
    ensures { IsElementText element.now }
{
    let _name = element.name.as_str();
    know_attributes(element.attributes.as_slice());
    know_children(element.children.as_slice());
}

/// That all texts of a file are texts.
pub fn know_texts(file: &[Entry<'_>])
    ensures { AreTexts (entries_of file.now) }
{
    for i in 0..file.len() {
        know_element(file[i].element);
    }
}
