// The tables by name.
use script_steps::{Files, Variables, find_caller, find_codec};
use script_types::{CallerItem, CodecItem, FoundCodec, FoundVariable, Kind, Step, VariableKind};
use std::alloc::Global;
use std::test::Fail;
use wc_base::{List, Text};

const FEW: usize = 16;

fn number_of(files: &mut Files, name: &str) -> Option<u32> {
    if files.len() > FEW {
        return None;
    }
    files.number(name).ok()
}

#[test]
fn files_are_numbered_by_first_mention(rt: HostRuntime) -> Result<(), Fail> {
    let mut files = Files::new(rt.alloc());
    let rows = [("b", 0), ("a", 1), ("b", 0), ("", 2), ("a", 1)];
    for (name, number) in rows {
        assert_eq!(rt; number_of(&mut files, name), Some(number), "{name}");
    }
    assert_eq!(rt; files.len(), 3);
    let names = files.into_names();
    assert_eq!(rt; names.get(1).map(Text::as_str), Some("a"));
    Ok(())
}

fn text(alloc: Global, of: &str) -> Result<Text, Fail> {
    Ok(Text::of(String::from_str(alloc, of)?))
}

fn variable(variables: &Variables, name: &str) -> Option<FoundVariable> {
    if variables.len() > FEW {
        return None;
    }
    variables.find(name)
}

#[test]
fn a_variable_is_that_of_the_first_step(rt: HostRuntime) -> Result<(), Fail> {
    let mut variables = Variables::new(rt.alloc());
    for name in ["p", "q", "p"] {
        let bind = text(rt.alloc(), name)?;
        let step = Step::Flush { on: 0, bind };
        assert_eq!(rt; variables.push(step), Ok(()));
        assert_eq!(rt; variables.push(Step::Reset { on: 0 }), Ok(()));
    }
    let kind = VariableKind::Promise;
    assert_eq!(rt;
        variable(&variables, "p"),
        Some(FoundVariable { step: 0, kind })
    );
    assert_eq!(rt;
        variable(&variables, "q"),
        Some(FoundVariable { step: 2, kind })
    );
    assert_eq!(rt; variable(&variables, "x"), None);
    assert!(rt; variables.defines("q"));
    assert!(rt; !variables.defines(""));
    assert_eq!(rt; variables.len(), 6);
    assert_eq!(rt; variables.into_steps().len(), 6);
    Ok(())
}

fn codec(codecs: &[CodecItem], name: &str) -> Option<FoundCodec> {
    if codecs.len() > FEW {
        return None;
    }
    find_codec(codecs, name)
}

fn caller(callers: &[CallerItem], name: &str) -> Option<u32> {
    if callers.len() > FEW {
        return None;
    }
    find_caller(callers, name)
}

#[test]
fn codecs_and_callers_are_found(rt: HostRuntime) -> Result<(), Fail> {
    let mut codecs = Vec::new(rt.alloc());
    let mut callers = Vec::new(rt.alloc());
    for name in ["d", "e"] {
        codecs.push(CodecItem {
            name: text(rt.alloc(), name)?,
            kind: Kind::VideoDecoder,
            saturation: 1,
        })?;
        callers.push(CallerItem {
            name: text(rt.alloc(), name)?,
            steps: List::empty(rt.alloc()),
        })?;
    }
    let kind = Kind::VideoDecoder;
    assert_eq!(rt; codec(&codecs, "e"), Some(FoundCodec { number: 1, kind }));
    assert_eq!(rt; codec(&codecs, "f"), None);
    assert_eq!(rt; caller(&callers, "e"), Some(1));
    assert_eq!(rt; caller(&callers, ""), None);
    Ok(())
}
