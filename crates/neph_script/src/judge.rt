// What a line says at its place, or why it can't stand there.
ghost use Rattle.std.specs.Prelude.{◌≡◌, ◌≤◌, ◌∷◌, ℕ, List, map, codes};
ghost use Rattle.std.specs.Option.{ok_or};
ghost use Rattle.neph_script.specs.Lines.{may_stand, fitting, word_count, is_many, are_whole, program_named, started, domain_line, heading, frames_line, program_line, label_name_line, end_line, turns_line, actors, item_of, unknown, judged_form, judged};
ghost use Rattle.neph_script.specs.Outcomes.{Gives, Shows};
ghost use Rattle.neph_script.specs.Seen.{seen, IsSound};

use crate::form::{Form, begun_by, is_later};
use crate::frames::{frames_of_start, frames_of_starts};
use crate::state::{Item, Place, Reader};
use crate::why::LineEnd;
use crate::word::{actor, name};
use neph_base::Actor;
use neph_command::{Why, command_line, is_name, number};
use neph_model::{Actors, Commands, Start};
use std::alloc::Global;

impl Reader {
    /// What a line of these words says.
    pub fn judge(&self, alloc: Global, words: &[&[u8]]) -> Result<Item, LineEnd>
        requires { IsSound self.now }
        ensures { Gives result (judged (seen self.now) (map (λ w. w.now) words.now)) }
    {
        let [first, words @ ..] = words else {
            return Err(LineEnd::Bad(Why::Word));
        };
        let Some(form) = begun_by(first) else {
            return Err(LineEnd::Bad(unknown(first)));
        };
        self.judge_form(alloc, form, words)
    }

    fn judge_form(&self, alloc: Global, form: Form, words: &[&[u8]]) -> Result<Item, LineEnd>
        requires { IsSound self.now }
        ensures { Gives result (judged_form (seen self.now) form
            (map (λ w. w.now) words.now)) }
    {
        if !may_stand(form, self.place) {
            return Err(LineEnd::Bad(Why::Word));
        }
        if self.is_many(form, words) {
            return Err(LineEnd::Bad(Why::Many));
        }
        if !are_whole(words) {
            return Err(LineEnd::Bad(Why::Form));
        }
        self.item(alloc, form, words)
    }

    fn is_many(&self, form: Form, words: &[&[u8]]) -> bool
        ensures { result ≡ is_many (seen self.now) form (map (λ w. w.now) words.now) }
    {
        match form {
            Form::Program => self.programs.len() >= 16,
            Form::Command(_) => self.draft.said.len() >= 512,
            Form::Label => self.draft.labels.len() >= 512,
            Form::Domain => self.starts.len() >= 16,
            Form::Turns => self.turn_lines >= 64 || word_count(words) > 64,
            Form::Heading | Form::Frames | Form::End => false,
        }
    }

    fn item(&self, alloc: Global, form: Form, words: &[&[u8]]) -> Result<Item, LineEnd>
        requires { IsSound self.now }
        ensures { Gives result (item_of (seen self.now) form (map (λ w. w.now) words.now)) }
    {
        match (form, words) {
            (Form::Heading, [version]) => Ok(heading(version)?),
            (Form::Frames, [count]) => Ok(frames(count)?),
            (Form::Program, [word]) => self.program(alloc, word),
            (Form::Label, [word]) => self.label(alloc, word),
            (Form::End, []) => self.end(alloc),
            (Form::Domain, [program, pages, limit, net]) => {
                Ok(self.domain(program, pages, limit, net)?)
            }
            (Form::Turns, [_, ..]) => turns(alloc, words),
            (Form::Command(verb), _) => Ok(Item::Command(command_line(verb, words)?)),
            _ => Err(LineEnd::Bad(Why::Form)),
        }
    }

    fn program(&self, alloc: Global, word: &[u8]) -> Result<Item, LineEnd>
        requires { IsSound self.now }
        ensures { Gives result (program_line (seen self.now) word.now) }
    {
        let name = name(alloc, word)?;
        if self.places.place(word).is_some() {
            return Err(LineEnd::Bad(Why::Name));
        }
        Ok(Item::Program(name))
    }

    fn label(&self, alloc: Global, word: &[u8]) -> Result<Item, LineEnd>
        requires { IsSound self.now }
        ensures { Gives result (label_name_line (seen self.now) word.now) }
    {
        let name = name(alloc, word)?;
        if self.draft.places.place(word).is_some() {
            return Err(LineEnd::Bad(Why::Name));
        }
        Ok(Item::Label(name))
    }

    fn end(&self, alloc: Global) -> Result<Item, LineEnd>
        requires { IsSound self.now }
        ensures { Gives result (end_line (seen self.now)) }
    {
        Ok(Item::End(Commands::of(self.draft.settled(alloc)?)))
    }

    fn domain(&self, program: &[u8], pages: &[u8], limit: &[u8], net: &[u8]) -> Result<Item, Why>
        requires { IsSound self.now }
        ensures { result ≡ domain_line (seen self.now) program.now pages.now limit.now net.now }
    {
        if net == b"exclusive".as_slice() {
            return Err(Why::Unbuilt);
        }
        let program = self.program_named(program)?;
        let pages = number(pages, 8, 1024)?;
        let limit = number(limit, 0, 62)?;
        if net != b"open".as_slice() {
            return Err(Why::Word);
        }
        self.fitting(Start {
            program,
            pages: pages as u16,
            limit: limit as u8,
        })
    }

    fn program_named(&self, word: &[u8]) -> Result<u8, Why>
        requires { IsSound self.now }
        ensures { result ≡ program_named self.now.programs.items word.now }
    {
        if !is_name(word) {
            return Err(Why::Name);
        }
        let place = self.places.place(word).ok_or(Why::Program)?;
        Ok(place as u8)
    }

    fn fitting(&self, start: Start) -> Result<Item, Why>
        requires sound { IsSound self.now }
        requires pages { start.pages ≤ 1024 }
        ensures { result ≡ fitting (seen self.now) start }
    {
        if frames_of_starts(&self.starts) + frames_of_start(start) > self.frames {
            return Err(Why::Frames);
        }
        Ok(Item::Start(start))
    }
}

// What is wrong with a first word that begins no form.
fn unknown(first: &[u8]) -> Why
    ensures { result ≡ unknown first.now }
{
    if is_later(first) {
        Why::Unbuilt
    } else {
        Why::Word
    }
}

// Whether a line of a form may stand at a place.
fn may_stand(form: Form, place: Place) -> bool
    ensures { result ≡ may_stand form place }
{
    match form {
        Form::Heading => place == Place::Top,
        Form::Frames => place == Place::Headed,
        Form::Program => place == Place::Framed || place == Place::Between,
        Form::Command(_) | Form::Label | Form::End => place == Place::Inside,
        Form::Domain => place == Place::Between || place == Place::Started,
        Form::Turns => place == Place::Started || place == Place::Turned,
    }
}

// How many of the words aren't empty.
fn word_count(words: &[&[u8]]) -> usize
    ensures { result ≡ word_count (map (λ w. w.now) words.now) }
{
    words.iter().filter(|w| !w.is_empty()).count()
}

fn are_whole(words: &[&[u8]]) -> bool
    ensures { result ≡ are_whole (map (λ w. w.now) words.now) }
{
    for word in words {
        if word.is_empty() {
            return false;
        }
    }
    true
}

fn heading(version: &[u8]) -> Result<Item, Why>
    ensures { result ≡ heading version.now }
{
    let _version = number(version, 1, 1)?;
    Ok(Item::Heading)
}

fn frames(count: &[u8]) -> Result<Item, Why>
    ensures { result ≡ frames_line count.now }
{
    Ok(Item::Frames(number(count, 16, 16384)?))
}

fn turns(alloc: Global, words: &[&[u8]]) -> Result<Item, LineEnd>
    ensures { Gives result (turns_line (map (λ w. w.now) words.now)) }
{
    Ok(Item::Turns(Actors::of(actors(alloc, words)?)))
}

fn actors(alloc: Global, words: &[&[u8]]) -> Result<Vec<Actor>, LineEnd>
    ensures { Shows (λ v. v.items) result (actors (map (λ w. w.now) words.now)) }
{
    let mut found = Vec::with_capacity(alloc, words.len())?;
    for word in words {
        match actor(word) {
            Err(why) => return Err(LineEnd::Bad(why)),
            Ok(actor) => found.push(actor)?,
        }
    }
    Ok(found)
}
