//! The canonical text of a syntax.

ghost use Rattle.std.specs.Prelude.{◌≡◌, ◌++◌, IfOk, OnOk, string_bytes, codes};
ghost use Rattle.std.specs.List.{AllByRecursion, flat_map};
ghost use Rattle.hs_text.specs.WellFormed.{IsExprFine, IsSimpleFine, IsItemFine, IsDefinitionFine};
ghost use Rattle.hs_text.specs.Canonical.{element_text, element_line, block, one_level, simple_text, simple_line, item_text, definition_text, canonical_text};

use crate::arranging::write_expr;
use crate::spelling::mark_word;
use crate::syntax::{Definition, Element, Item, Rule, Simple, Syntax};
use crate::unit_printing::{write_params, write_unit};
use hs_expr::{Name, NameExpr, Text};
use std::alloc::{AllocError, Global};

fn write_element(out: &mut String, element: &Element) -> Result<(), AllocError>
    ensures { OnOk result
        (string_bytes out.new ≡ string_bytes out.old ++ element_text element.now) }
{
    match element {
        Element::Node { name, class } => write_node(out, name, class),
        Element::Edge {
            source,
            target,
            reference,
        } => {
            out.push_str("edge ")?;
            out.push_str(source.text.as_str())?;
            out.push_str(" -> ")?;
            out.push_str(target.text.as_str())?;
            out.push_str(": ")?;
            out.push_str(reference.text.as_str())
        }
    }
}

fn write_node(out: &mut String, name: &Name, class: &Name) -> Result<(), AllocError>
    ensures { OnOk result (string_bytes out.new
        ≡ string_bytes out.old ++ element_text (Element.Node name.now class.now)) }
{
    out.push_str("node ")?;
    out.push_str(name.text.as_str())?;
    out.push_str(": ")?;
    out.push_str(class.text.as_str())
}

fn write_element_line(out: &mut String, element: &Element) -> Result<(), AllocError>
    ensures { OnOk result
        (string_bytes out.new ≡ string_bytes out.old ++ element_line element.now) }
{
    out.push_str("    ")?;
    write_element(out, element)?;
    out.push_str(";\n")
}

fn write_element_lines(out: &mut String, elements: &[Element]) -> Result<(), AllocError>
    ensures { OnOk result
        (string_bytes out.new ≡ string_bytes out.old ++ flat_map element_line elements.now) }
{
    for element in elements {
        write_element_line(out, element)?;
    }
    Ok(())
}

/// Writes a block of a rule that has elements.
fn write_element_block(
    out: &mut String,
    opening: &str,
    elements: &[Element],
) -> Result<(), AllocError>
    ensures { OnOk result (string_bytes out.new ≡ string_bytes out.old
        ++ block one_level opening.now (flat_map element_line elements.now)) }
{
    out.push_str("  ")?;
    out.push_str(opening)?;
    out.push_str(" {\n")?;
    write_element_lines(out, elements)?;
    out.push_str("  }\n")
}

fn write_set(
    alloc: Global,
    out: &mut String,
    node: &Name,
    attribute: &Name,
    value: &NameExpr,
) -> Result<(), AllocError>
    requires { IsExprFine value.now }
    ensures { OnOk result (string_bytes out.new
        ≡ string_bytes out.old ++ simple_text (Simple.Set node.now attribute.now value.now)) }
{
    out.push_str("set ")?;
    out.push_str(node.text.as_str())?;
    out.push_str(".")?;
    out.push_str(attribute.text.as_str())?;
    out.push_str(" = ")?;
    write_expr(alloc, out, value)
}

fn write_simple(alloc: Global, out: &mut String, simple: &Simple) -> Result<(), AllocError>
    requires { IsSimpleFine simple.now }
    ensures { OnOk result (string_bytes out.new ≡ string_bytes out.old ++ simple_text simple.now) }
{
    match simple {
        Simple::Marked { mark, element } => {
            out.push_str(mark_word(*mark))?;
            out.push_str(" ")?;
            write_element(out, element)
        }
        Simple::Set {
            node,
            attribute,
            value,
        } => write_set(alloc, out, node, attribute, value),
        Simple::Where { test, .. } => {
            out.push_str("where ")?;
            write_expr(alloc, out, test)
        }
    }
}

fn write_simple_line(alloc: Global, out: &mut String, simple: &Simple) -> Result<(), AllocError>
    requires { IsSimpleFine simple.now }
    ensures { OnOk result (string_bytes out.new ≡ string_bytes out.old ++ simple_line simple.now) }
{
    out.push_str("    ")?;
    write_simple(alloc, out, simple)?;
    out.push_str(";\n")
}

fn write_simple_lines(alloc: Global, out: &mut String, simples: &[Simple]) -> Result<(), AllocError>
    requires { AllByRecursion IsSimpleFine simples.now }
    ensures { OnOk result
        (string_bytes out.new ≡ string_bytes out.old ++ flat_map simple_line simples.now) }
{
    for simple in simples {
        write_simple_line(alloc, out, simple)?;
    }
    Ok(())
}

fn write_item(alloc: Global, out: &mut String, item: &Item) -> Result<(), AllocError>
    requires { IsItemFine item.now }
    ensures { OnOk result (string_bytes out.new ≡ string_bytes out.old ++ item_text item.now) }
{
    match item {
        Item::Simple(simple) => {
            out.push_str("  ")?;
            write_simple(alloc, out, simple)?;
            out.push_str(";\n")
        }
        Item::Forbid(elements) => write_element_block(out, "forbid", elements.as_slice()),
        Item::Require(elements) => write_element_block(out, "require", elements.as_slice()),
        Item::Multi(simples) => {
            out.push_str("  multi {\n")?;
            write_simple_lines(alloc, out, simples.as_slice())?;
            out.push_str("  }\n")
        }
    }
}

fn write_items(alloc: Global, out: &mut String, items: &[Item]) -> Result<(), AllocError>
    requires { AllByRecursion IsItemFine items.now }
    ensures { OnOk result
        (string_bytes out.new ≡ string_bytes out.old ++ flat_map item_text items.now) }
{
    for item in items {
        write_item(alloc, out, item)?;
    }
    Ok(())
}

fn write_rule(alloc: Global, out: &mut String, rule: &Rule) -> Result<(), AllocError>
    requires { IsDefinitionFine (Definition.Rule rule.now) }
    ensures { OnOk result (string_bytes out.new
        ≡ string_bytes out.old ++ definition_text (Definition.Rule rule.now)) }
{
    out.push_str("rule ")?;
    out.push_str(rule.name.text.as_str())?;
    write_params(out, rule.params.as_slice())?;
    out.push_str(" {\n")?;
    write_items(alloc, out, rule.items.as_slice())?;
    out.push_str("}\n")
}

fn write_definition(
    alloc: Global,
    out: &mut String,
    definition: &Definition,
) -> Result<(), AllocError>
    requires { IsDefinitionFine definition.now }
    ensures { OnOk result
        (string_bytes out.new ≡ string_bytes out.old ++ definition_text definition.now) }
{
    match definition {
        Definition::Rule(rule) => write_rule(alloc, out, rule),
        Definition::Unit(unit) => write_unit(alloc, out, unit),
    }
}

/// Writes the definitions after the first, each after an empty line.
fn write_more_definitions(
    alloc: Global,
    out: &mut String,
    definitions: &[Definition],
) -> Result<(), AllocError>
    requires { AllByRecursion IsDefinitionFine definitions.now }
    ensures { OnOk result (string_bytes out.new ≡ string_bytes out.old
        ++ flat_map (λ next. codes "\n" ++ definition_text next) definitions.now) }
{
    for definition in definitions {
        out.push_str("\n")?;
        write_definition(alloc, out, definition)?;
    }
    Ok(())
}

fn write_definitions(
    alloc: Global,
    out: &mut String,
    definitions: &[Definition],
) -> Result<(), AllocError>
    requires { AllByRecursion IsDefinitionFine definitions.now }
    ensures { OnOk result
        (string_bytes out.new ≡ string_bytes out.old ++ canonical_text definitions.now) }
{
    match definitions {
        [] => Ok(()),
        [first, more @ ..] => {
            write_definition(alloc, out, first)?;
            write_more_definitions(alloc, out, more)
        }
    }
}

/// The canonical text of a syntax: one definition after another with an empty line between two, two
/// spaces a level, items in written order, and parentheses round each operand that an operator
/// makes.
pub fn print(alloc: Global, syntax: &Syntax) -> Result<Text, AllocError>
    ensures { IfOk result (λ text. text ≡ canonical_text syntax.now.definitions) }
{
    let mut out = String::new(alloc);
    write_definitions(alloc, &mut out, syntax.definitions.as_slice())?;
    Ok(Text::from_string(out))
}
