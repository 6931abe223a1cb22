//! Why a group is refused, before anything is made.
ghost use Rattle.std.specs.Prelude.{◌≡◌, ◌&&◌, Option, None, Some};
ghost use Rattle.std.specs.List.{list_any};
ghost use Rattle.std.specs.Str.{bytes_eq};
ghost use Rattle.kf_tree.specs.Causes.{list_cause};
ghost use Rattle.kf_groups.specs.Attributes.{file_fault, file_of, files_cause, group_cause, has_files, has_name, is_shown, own_name, shown, shown_cause};
ghost use Rattle.kf_groups.specs.Groups.{clashes, groups_cause, makes, shares};

use crate::attribute::{Attribute, Group};
use kf_core::{Key, Node, Refusal};
use kf_index::name_fault;
use kf_tree::State;

/// The node of an attribute's file.
pub(crate) fn file_of(attribute: &Attribute) -> Node
    ensures known { result ≡ file_of attribute.now }
{
    Node::File {
        mode: attribute.mode,
        tag: attribute.tag,
    }
}

// Whether the attribute has a file.
fn is_shown(attribute: &Attribute) -> bool
    ensures known { result ≡ is_shown attribute.now }
{
    attribute.mode != 0
}

// Whether one of the attributes has a file.
fn has_files(attributes: &[Attribute]) -> bool
    ensures known { result ≡ has_files attributes.now }
{
    attributes.iter().any(|attribute| is_shown(attribute))
}

/// The name of the directory that the group makes for its files. None if the group has no name, or no file.
pub(crate) fn own_name<'a>(group: &Group<'a>) -> Option<&'a [u8]>
    ensures known { result ≡ own_name group.now }
{
    if has_files(group.attributes) {
        group.name
    } else {
        None
    }
}

// Whether the attribute has a file of this name.
fn is_named(attribute: &Attribute, name: &[u8]) -> bool
    ensures known { result ≡ (is_shown attribute.now && bytes_eq attribute.now.name.now name.now) }
{
    attribute.mode != 0 && attribute.name == name
}

// Whether one of the attributes has a file of this name.
fn any_named(attributes: &[Attribute], name: &[u8]) -> bool
    ensures known { result ≡
        list_any (λ attribute. is_shown attribute && bytes_eq attribute.name.now name.now) attributes.now }
{
    attributes.iter().any(|attribute| is_named(attribute, name))
}

// Whether one of the attributes that have files has this name.
fn has_name(attributes: &[Attribute], name: &[u8]) -> bool
    ensures known { result ≡ has_name (shown attributes.now) name.now }
{
    any_named(attributes, name)
}

// What is wrong with a file in this directory or, if that is None, in a new one.
fn file_fault(state: &State, dir: Option<Key>, attribute: &Attribute) -> Option<Refusal>
    ensures first { result ≡ file_fault state.now.tree state.now.root dir attribute.now }
{
    match dir {
        Some(dir) => state.create_fault(dir, attribute.name, file_of(attribute)),
        None => name_fault(attribute.name),
    }
}

// Why the file of this attribute is refused, if it has one. The attributes in `later` come after it.
fn first_cause(
    state: &State,
    dir: Option<Key>,
    attribute: &Attribute,
    later: &[Attribute],
) -> Option<Refusal>
    ensures first { result ≡
        shown_cause (file_fault state.now.tree state.now.root dir) attribute.now later.now }
{
    if attribute.mode == 0 {
        return None;
    }
    if let Some(fault) = file_fault(state, dir, attribute) {
        return Some(fault);
    }
    if has_name(later, attribute.name) {
        return Some(Refusal::Exists);
    }
    None
}

// Why these files are refused in this directory or, if that is None, in a new one.
fn files_cause(state: &State, dir: Option<Key>, attributes: &[Attribute]) -> Option<Refusal>
    ensures first { result ≡
        files_cause (file_fault state.now.tree state.now.root dir) (shown attributes.now) }
{
    for place in 0..attributes.len() {
        let later = &attributes[place + 1..];
        if let Some(refusal) = first_cause(state, dir, &attributes[place], later) {
            return Some(refusal);
        }
    }
    None
}

// What is wrong with the node in which files are to be made: it is not linked, or it is not a directory.
fn dir_fault(state: &State, dir: Key) -> Option<Refusal>
    ensures first { result ≡ list_cause state.now.tree dir }
{
    match state.names(dir, None, 0) {
        Ok(_) => None,
        Err(refusal) => Some(refusal),
    }
}

/// Why the group is refused, apart from a lack of slots or memory.
pub(crate) fn group_cause(state: &State, dir: Key, group: &Group) -> Option<Refusal>
    ensures first { result ≡ group_cause state.now.tree state.now.root dir group.now }
{
    let Some(name) = own_name(group) else {
        if let Some(fault) = dir_fault(state, dir) {
            return Some(fault);
        }
        return files_cause(state, Some(dir), group.attributes);
    };
    if let Some(fault) = state.create_fault(dir, name, Node::Dir) {
        return Some(fault);
    }
    files_cause(state, None, group.attributes)
}

// Whether the group makes an entry of this name: its own directory, or one of its files.
fn makes(group: &Group, name: &[u8]) -> bool
    ensures known { result ≡ makes name.now group.now }
{
    match own_name(group) {
        Some(own) => own == name,
        None => has_name(group.attributes, name),
    }
}

// Whether the group makes an entry with the name of this attribute's file.
fn makes_file(group: &Group, attribute: &Attribute) -> bool
    ensures known { result ≡ (is_shown attribute.now && makes attribute.now.name.now group.now) }
{
    attribute.mode != 0 && makes(group, attribute.name)
}

// Whether the group makes an entry with the name of a file of one of these attributes.
fn makes_any(group: &Group, attributes: &[Attribute]) -> bool
    ensures known { result ≡
        list_any (λ attribute. is_shown attribute && makes attribute.name.now group.now) attributes.now }
{
    attributes
        .iter()
        .any(|attribute| makes_file(group, attribute))
}

// Whether both groups make an entry of the same name.
fn shares(group: &Group, other: &Group) -> bool
    ensures known { result ≡ shares group.now other.now }
{
    match own_name(other) {
        Some(own) => makes(group, own),
        None => makes_any(group, other.attributes),
    }
}

// Whether this group and one of the others make an entry of the same name.
fn clashes(others: &[Group], group: &Group) -> bool
    ensures known { result ≡ clashes others.now group.now }
{
    others.iter().any(|other| shares(group, other))
}

/// Why these groups are refused, apart from a lack of slots or memory.
pub(crate) fn groups_cause(state: &State, dir: Key, groups: &[Group]) -> Option<Refusal>
    ensures first { result ≡ groups_cause state.now.tree state.now.root dir groups.now }
{
    let [first, rest @ ..] = groups else {
        return None;
    };
    if let Some(refusal) = group_cause(state, dir, first) {
        return Some(refusal);
    }
    if clashes(rest, first) {
        return Some(Refusal::Exists);
    }
    groups_cause(state, dir, rest)
}
