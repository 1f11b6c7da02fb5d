//! The environment division.
ghost use Rattle.std.specs.Prelude.{◌≡◌, ◌<◌, ◌≤◌, ◌∷◌, [], length, IfOk};
ghost use Rattle.cob_parse_expr.specs.Steps.{signs, Gives};
ghost use Rattle.cob_tree.specs.declared.keyword.Keyword.TheVariants as key;
ghost use Rattle.cob_parse_data.specs.Reading.{computer, perhaps, config, io, env};

use crate::select::selects;
use crate::word::{heading, named, title};
use cob_parse_expr::{Halt, Lexeme, stands};
use cob_tree::{Config, Env, Io, Keyword, Many, Name};
use std::alloc::Global;

fn computer(alloc: Global, keyword: Keyword, lexemes: &[Lexeme]) -> Result<(Name, &[Lexeme]), Halt>
    ensures gives { Gives (λ x. (x.0, signs x.1.now)) result (computer keyword (signs lexemes.now)) }
    ensures rest { IfOk result (λ x. length x.1.now < length lexemes.now) }
{
    let rest = or_leave!(title(keyword, lexemes));
    named(alloc, rest)
}

fn computer_part(
    alloc: Global,
    keyword: Keyword,
    lexemes: &[Lexeme],
) -> Result<(Option<Name>, &[Lexeme]), Halt>
    ensures gives { Gives (λ x. (x.0, signs x.1.now)) result (perhaps keyword (computer keyword) (signs lexemes.now)) }
    ensures rest { IfOk result (λ x. length x.1.now ≤ length lexemes.now) }
{
    if stands(keyword, lexemes) {
        let (name, rest) = or_leave!(computer(alloc, keyword, lexemes));
        Ok((Some(name), rest))
    } else {
        Ok((None, lexemes))
    }
}

/// The CONFIGURATION SECTION.
fn config(alloc: Global, lexemes: &[Lexeme]) -> Result<(Config, &[Lexeme]), Halt>
    ensures gives { Gives (λ x. (x.0, signs x.1.now)) result (config (signs lexemes.now)) }
    ensures rest { IfOk result (λ x. length x.1.now < length lexemes.now) }
{
    let rest = or_leave!(heading(Keyword::Configuration, Keyword::Section, lexemes));
    let (source, rest) = or_leave!(computer_part(alloc, Keyword::SourceComputer, rest));
    let (object, rest) = or_leave!(computer_part(alloc, Keyword::ObjectComputer, rest), source);
    Ok((Config { source, object }, rest))
}

fn config_part(alloc: Global, lexemes: &[Lexeme]) -> Result<(Option<Config>, &[Lexeme]), Halt>
    ensures gives { Gives (λ x. (x.0, signs x.1.now)) result (perhaps key.Configuration config (signs lexemes.now)) }
    ensures rest { IfOk result (λ x. length x.1.now ≤ length lexemes.now) }
{
    if stands(Keyword::Configuration, lexemes) {
        let (config, rest) = or_leave!(config(alloc, lexemes));
        Ok((Some(config), rest))
    } else {
        Ok((None, lexemes))
    }
}

/// The INPUT-OUTPUT SECTION.
fn io(alloc: Global, lexemes: &[Lexeme]) -> Result<(Io, &[Lexeme]), Halt>
    ensures gives { Gives (λ x. (x.0, signs x.1.now)) result (io (signs lexemes.now)) }
    ensures rest { IfOk result (λ x. length x.1.now < length lexemes.now) }
{
    let rest = or_leave!(heading(Keyword::InputOutput, Keyword::Section, lexemes));
    let rest = or_leave!(title(Keyword::FileControl, rest));
    let (selects, rest) = or_leave!(selects(alloc, rest));
    let selects = Many::of(selects);
    Ok((Io { selects }, rest))
}

fn io_part(alloc: Global, lexemes: &[Lexeme]) -> Result<(Option<Io>, &[Lexeme]), Halt>
    ensures gives { Gives (λ x. (x.0, signs x.1.now)) result (perhaps key.InputOutput io (signs lexemes.now)) }
    ensures rest { IfOk result (λ x. length x.1.now ≤ length lexemes.now) }
{
    if stands(Keyword::InputOutput, lexemes) {
        let (io, rest) = or_leave!(io(alloc, lexemes));
        Ok((Some(io), rest))
    } else {
        Ok((None, lexemes))
    }
}

/// The ENVIRONMENT DIVISION.
fn env(alloc: Global, lexemes: &[Lexeme]) -> Result<(Env, &[Lexeme]), Halt>
    ensures gives { Gives (λ x. (x.0, signs x.1.now)) result (env (signs lexemes.now)) }
    ensures rest { IfOk result (λ x. length x.1.now < length lexemes.now) }
{
    let rest = or_leave!(heading(Keyword::Environment, Keyword::Division, lexemes));
    let (config, rest) = or_leave!(config_part(alloc, rest));
    let (io, rest) = or_leave!(io_part(alloc, rest), config);
    Ok((Env { config, io }, rest))
}

/// The ENVIRONMENT DIVISION, where it stands.
pub fn env_part(alloc: Global, lexemes: &[Lexeme]) -> Result<(Option<Env>, &[Lexeme]), Halt>
    ensures gives { Gives (λ x. (x.0, signs x.1.now)) result (perhaps key.Environment env (signs lexemes.now)) }
    ensures rest { IfOk result (λ x. length x.1.now ≤ length lexemes.now) }
{
    if stands(Keyword::Environment, lexemes) {
        let (env, rest) = or_leave!(env(alloc, lexemes));
        Ok((Some(env), rest))
    } else {
        Ok((None, lexemes))
    }
}
