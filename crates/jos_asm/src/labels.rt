//! Where labels are.

ghost use Rattle.std.specs.Prelude.{◌≡◌, ℕ, ◌≤◌, IsTrue, IfOk, IfErr, OnOk, All, [], None, Some, List};
ghost use Rattle.std.specs.Option.{option_map};
ghost use Rattle.jos_asm.specs.Items.{is_item};
ghost use Rattle.jos_asm.specs.Program.{length_of_all, is_label, place_in, first_twice};
ghost use Rattle.jos_asm.specs.Calls.{IsFault};
ghost use Rattle.jos_asm.specs.Labels.{twice_in, with_label, labelled};

use crate::fault::AsmFault;
use crate::item::Item;
use crate::lengths::length_of;
use crate::limits::CODE_MAX;
use crate::name::Name;
use std::alloc::Global;
use std::collections::BTreeMap;
use std::marker::Model;

/// Whether an item is the label of this name.
fn is_label(item: &Item, name: &Name) -> bool
    ensures { result ≡ is_label name.now item.now }
{
    match item {
        Item::Label(label) => label.as_str() == name.as_str(),
        _ => false,
    }
}

/// Where the label of this name is, found by going over the items.
fn place_in(items: &[Item], name: &Name) -> Option<u32>
    requires items { All (λ i. IsTrue (is_item i)) items.now }
    requires small { length_of_all items.now ≤ CODE_MAX }
    ensures { result ≡ place_in items.now name.now }
{
    let mut at = 0;
    for item in items {
        if is_label(item, name) {
            return Some(at);
        }
        at += length_of(item) as u32;
    }
    None
}

/// Refuses an item that is a label with the name of one before it.
fn check_label(before: &[Item], item: &Item) -> Result<(), AsmFault>
    requires items { All (λ i. IsTrue (is_item i)) before.now }
    requires small { length_of_all before.now ≤ CODE_MAX }
    ensures once { OnOk result (twice_in (place_in before.now) item.now ≡ None) }
    ensures fault { IfErr result (λ fault. twice_in (place_in before.now) item.now ≡ Some fault) }
{
    match item {
        Item::Label(name) => match place_in(before, name) {
            None => Ok(()),
            Some(_) => Err(AsmFault::Twice(name.copy())),
        },
        _ => Ok(()),
    }
}

/// Refuses a label that has the name of one before it. It takes no memory.
fn check_labels(items: &[Item]) -> Result<(), AsmFault>
    requires items { All (λ i. IsTrue (is_item i)) items.now }
    requires small { length_of_all items.now ≤ CODE_MAX }
    ensures once { OnOk result (first_twice [] items.now ≡ None) }
    ensures fault { IfErr result (λ fault. option_map AsmFault.Twice (first_twice [] items.now) ≡ Some fault) }
{
    for place in 0..items.len() {
        check_label(&items[..place], &items[place])?;
    }
    Ok(())
}

/// Adds a label at `at` to those that are found. Another item changes nothing.
fn add_label<'a>(
    item: &'a Item,
    at: u32,
    labels: &mut BTreeMap<&'a str, u32>,
) -> Result<(), AsmFault>
    ensures found { OnOk result ((twice_in (labelled labels.old) item.now ≡ None)
        × ((name : List ℕ) → labelled labels.new name ≡ with_label (labelled labels.old) at item.now name)) }
    ensures fault { IfErr result (λ fault. IsFault fault (twice_in (labelled labels.old) item.now)) }
{
    match item {
        Item::Label(name) => match labels.insert(name.as_str(), at) {
            Ok(None) => Ok(()),
            Ok(Some(_)) => Err(AsmFault::Twice(name.copy())),
            Err(_) => Err(AsmFault::NoMemory),
        },
        _ => Ok(()),
    }
}

/// A table of where each label is, in bytes from the beginning.
fn make_table<'a>(alloc: Global, items: &'a [Item]) -> Result<BTreeMap<&'a str, u32>, AsmFault>
    requires items { All (λ i. IsTrue (is_item i)) items.now }
    requires small { length_of_all items.now ≤ CODE_MAX }
    ensures labels { IfOk result (λ labels. (name : List ℕ) → labelled labels name ≡ place_in items.now name) }
    ensures once { IfOk result (λ _. first_twice [] items.now ≡ None) }
    ensures fault { IfErr result (λ fault. IsFault fault (option_map AsmFault.Twice (first_twice [] items.now))) }
{
    let mut labels = BTreeMap::new(alloc);
    let mut at = 0;
    for item in items {
        add_label(item, at, &mut labels)?;
        at += length_of(item) as u32;
    }
    Ok(labels)
}

/// The items of a program, no two labels of which have the same name.
///
/// Where each label is stands in a table. Where there is no memory for the table, a label is found by going over
/// the items again, so that a fault of the program is told all the same.
#[derive(Drop)]
pub(crate) struct Labels<'a> {
    items: &'a [Item],
    table: Option<BTreeMap<&'a str, u32>>,
}

impl<'a> Model for Labels<'a> {
    ghost use Rattle.std.specs.Prelude.{List};
    ghost use Rattle.jos_asm.specs.declared.item.Item.{Item};
    ghost use Rattle.jos_asm.specs.Labels.{AreTold};

    ghost Value = { List Item };

    ghost view = { λ l. l.items.now };

    ghost invariant = { λ l. AreTold l.items.now l.table };
}

impl<'a> Labels<'a> {
    /// Finds the labels of these items.
    pub(crate) fn find(alloc: Global, items: &'a [Item]) -> Result<Labels<'a>, AsmFault>
        requires items { All (λ i. IsTrue (is_item i)) items.now }
        requires small { length_of_all items.now ≤ CODE_MAX }
        ensures items { IfOk result (λ labels. labels ≡ items.now) }
        ensures once { OnOk result (first_twice [] items.now ≡ None) }
        ensures fault { IfErr result (λ fault. option_map AsmFault.Twice (first_twice [] items.now) ≡ Some fault) }
    {
        match make_table(alloc, items) {
            Ok(table) => Ok(Labels {
                items,
                table: Some(table),
            }),
            Err(AsmFault::NoMemory) => {
                check_labels(items)?;
                Ok(Labels { items, table: None })
            }
            Err(fault) => Err(fault),
        }
    }

    /// The items.
    pub(crate) fn items(&self) -> &'a [Item]
        ensures items { result.now ≡ self.now }
        ensures lawful { All (λ i. IsTrue (is_item i)) self.now }
        ensures small { length_of_all self.now ≤ CODE_MAX }
    {
        self.items
    }

    /// Where the label of this name is, in bytes from the beginning, if there is one.
    pub(crate) fn place_of(&self, name: &'a Name) -> Option<u32>
        ensures { result ≡ place_in self.now name.now }
    {
        match &self.table {
            Some(table) => table.get(&name.as_str()).copied(),
            None => place_in(self.items, name),
        }
    }
}
