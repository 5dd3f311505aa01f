//! A name space of metrics.
use case_book::{Words, text_of};
use pcp_base::{List, NoMemory, Pmid, Text};
use pmns_core::{Names, NamesFault};
use std::alloc::Global;

fn write_name(out: &mut String, name: &Text) -> Result<(), NoMemory> {
    case_book::write_text(out, name.as_slice())
}

// `add NAME WORD NAME WORD ..`: the pairs, each with the identifier's word in decimal.
fn pairs_of(alloc: Global, mut words: Words<'_>) -> Result<Option<List<(Text, Pmid)>>, NoMemory> {
    let mut pairs = List::empty(alloc);
    for _ in 0..1000 {
        if words.is_done() {
            break;
        }
        let name = text_of(alloc, words.next())?;
        let Some(word) = words.number() else {
            return Ok(None);
        };
        pairs.push((name, Pmid::of_word(word)))?;
    }
    Ok(Some(pairs))
}

fn tell_added(out: &mut String, added: Result<(), NamesFault>) -> Result<(), NoMemory> {
    match added {
        Ok(()) => out.push_str("added")?,
        Err(NamesFault::Duplicate { name }) => {
            out.push_str("Duplicate ")?;
            write_name(out, &name)?;
        }
        Err(NamesFault::LeafAndNode { name }) => {
            out.push_str("LeafAndNode ")?;
            write_name(out, &name)?;
        }
        Err(NamesFault::NoMemory) => return Err(NoMemory),
    }
    out.push('\n')?;
    Ok(())
}

fn tell_pmid(out: &mut String, found: Option<Pmid>) -> Result<(), NoMemory> {
    match found {
        Some(pmid) => {
            let word = pmid.word();
            write!(out, "{word}\n")?;
        }
        None => out.push_str("none\n")?,
    }
    Ok(())
}

fn tell_name(out: &mut String, found: Option<&Text>) -> Result<(), NoMemory> {
    match found {
        Some(name) => write_name(out, name)?,
        None => out.push_str("none")?,
    }
    out.push('\n')?;
    Ok(())
}

fn tell_children(out: &mut String, children: Option<List<(Text, bool)>>) -> Result<(), NoMemory> {
    let Some(children) = children else {
        out.push_str("none\n")?;
        return Ok(());
    };
    for (component, is_leaf) in children.as_slice() {
        write_name(out, component)?;
        out.push_str(if *is_leaf { " leaf\n" } else { " node\n" })?;
    }
    Ok(())
}

fn tell_all(out: &mut String, pairs: &List<(Text, Pmid)>) -> Result<(), NoMemory> {
    for (name, pmid) in pairs.as_slice() {
        write_name(out, name)?;
        let word = pmid.word();
        write!(out, " {word}\n")?;
    }
    Ok(())
}

// `add NAME WORD ..`; false where the words are no pairs.
fn add(
    alloc: Global,
    out: &mut String,
    names: &mut Names,
    words: Words<'_>,
) -> Result<bool, NoMemory> {
    match pairs_of(alloc, words)? {
        Some(pairs) => {
            tell_added(out, names.add(alloc, &pairs))?;
            Ok(true)
        }
        None => Ok(false),
    }
}

// `name_of WORD`
fn find_name(out: &mut String, names: &Names, mut words: Words<'_>) -> Result<bool, NoMemory> {
    match words.number() {
        Some(word) => {
            tell_name(out, names.name_of(Pmid::of_word(word)))?;
            Ok(true)
        }
        None => Ok(false),
    }
}

// `find NAME`, `children NAME` and `traverse NAME`
fn look(
    alloc: Global,
    out: &mut String,
    names: &Names,
    form: &str,
    name: &Text,
) -> Result<bool, NoMemory> {
    match form {
        "find" => tell_pmid(out, names.find(name))?,
        "children" => tell_children(out, names.children(alloc, name)?)?,
        "traverse" => tell_all(out, &names.traverse(alloc, name)?)?,
        _ => return Ok(false),
    }
    Ok(true)
}

fn look_at_name(
    alloc: Global,
    out: &mut String,
    names: &Names,
    form: &str,
    word: &str,
) -> Result<bool, NoMemory> {
    let name = text_of(alloc, word)?;
    look(alloc, out, names, form, &name)
}

/// `names add NAME WORD ..`, `find NAME`, `name_of WORD`, `children NAME` and `traverse NAME`. `None` where it is
/// none of these.
pub fn tell_names(
    alloc: Global,
    names: &mut Names,
    mut words: Words<'_>,
) -> Result<Option<String>, NoMemory> {
    let mut out = String::new(alloc);
    let form = words.next();
    let known = match form {
        "add" => add(alloc, &mut out, names, words)?,
        "name_of" => find_name(&mut out, names, words)?,
        _ => look_at_name(alloc, &mut out, names, form, words.rest())?,
    };
    Ok(if known { Some(out) } else { None })
}
