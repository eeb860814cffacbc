//! The numbers of classes, by their names.

ghost use Rattle.std.specs.Prelude.{◌≡◌, ◌+◌, ◌∷◌, ◌++◌, ◌≤◌, ℕ, List, Some, length, take, map, slice_get, unwrap_or, IfOk, OnOk};
ghost use Rattle.std.specs.BTreeMap.{get_by_text};
ghost use Rattle.std.specs.List.{filter_map};
ghost use Rattle.hs_meta.specs.declared.raw.RawClass.{RawClass};
ghost use Rattle.hs_meta.specs.Names as names;
ghost use Rattle.hs_meta.specs.Numbered.{KnowsClasses};

use crate::raw::RawClass;
use hs_expr::{List, Text};
use hs_types::ClassNo;
use hs_types::limits::MAX_CLASSES;
use std::alloc::{AllocError, Global};
use std::collections::BTreeMap;

/// The numbers of the classes, by their names.
pub type Numbers = BTreeMap<String, ClassNo>;

/// The number of each class by its name; of two classes with one name, that of the first.
pub fn numbers_of(alloc: Global, classes: &[RawClass]) -> Result<Numbers, AllocError>
    requires { length classes.now ≤ MAX_CLASSES }
    ensures { IfOk result (λ numbers. KnowsClasses numbers classes.now) }
{
    let mut numbers = Numbers::new(alloc);
    for (c, class) in classes.iter().enumerate() {
        add_class(alloc, class, c as ClassNo, &mut numbers)?;
    }
    Ok(numbers)
}

fn add_class(
    alloc: Global,
    class: &RawClass,
    number: ClassNo,
    numbers: &mut Numbers,
) -> Result<(), AllocError>
    ensures { (classes : List RawClass) → slice_get classes number ≡ Some class.now
        → KnowsClasses numbers.old (take number classes)
        → OnOk result (KnowsClasses numbers.new (take (number + 1) classes)) }
{
    if numbers.contains_key(class.name.as_str()) {
        return Ok(());
    }
    let name = String::from_str(alloc, class.name.as_str())?;
    numbers.insert(name, number)?;
    Ok(())
}

/// The number of the class of this name.
pub fn number_of(numbers: &Numbers, name: &Text) -> ClassNo
    ensures { (classes : List RawClass) → KnowsClasses numbers.now classes
        → result ≡ unwrap_or (names.raw_class_number classes name.now) 0 }
{
    numbers.get(name.as_str()).copied().unwrap_or(0)
}

/// The numbers of the classes that have these names.
pub fn numbers_named(
    alloc: Global,
    numbers: &Numbers,
    texts: &[Text],
) -> Result<List<ClassNo>, AllocError>
    ensures { (classes : List RawClass) → KnowsClasses numbers.now classes
        → IfOk result (λ found. found ≡ filter_map (names.raw_class_number classes) texts.now) }
{
    let mut found = List::new(alloc);
    for text in texts {
        add_named(numbers, text, &mut found)?;
    }
    Ok(found)
}

fn add_named(numbers: &Numbers, text: &Text, found: &mut List<ClassNo>) -> Result<(), AllocError>
    ensures { (classes : List RawClass) (rest : List (List ℕ)) → KnowsClasses numbers.now classes
        → OnOk result (found.new ++ filter_map (names.raw_class_number classes) rest
        ≡ found.old ++ filter_map (names.raw_class_number classes) (text.now ∷ rest)) }
{
    match numbers.get(text.as_str()) {
        Some(number) => found.push(*number),
        None => Ok(()),
    }
}
