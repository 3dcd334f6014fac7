//! What stands round the units of a text.
use crate::error::WholeError;
use std::alloc::{AllocError, Global};
use std::collections::HashMap;
use text_lexer::{Kind, Token, tokenize};
use text_outline::{Jump, Outline, Unit};

/// What stands in the place of a unit where the code round it is read: a token that nothing joins.
const BLANK: &str = " 0 ";

/// What stands round a unit.
#[derive(Drop)]
pub(crate) struct Around {
    /// where its place begins: in front of the labels that it alone jumps to
    pub(crate) start: u32,
    /// the jumps to other places
    pub(crate) jumps: Vec<Jump>,
    pub(crate) is_behind_new: bool,
    pub(crate) is_called: bool,
    pub(crate) is_before_dot: bool,
}

/// The tokens of the code round the units.
#[derive(Drop)]
pub(crate) struct Surroundings {
    text: String,
    tokens: Vec<Token>,
    /// where the blank of each unit begins
    blanks: Vec<usize>,
    /// the first token that is at or behind the last blank that was looked for
    next: usize,
}

impl Surroundings {
    pub(crate) fn new(
        alloc: Global,
        text: &str,
        units: &[Unit],
    ) -> Result<Surroundings, WholeError> {
        let mut out = String::new(alloc);
        let mut blanks = Vec::new(alloc);
        let mut end = 0;
        for unit in units {
            out.push_str(text.get(end..unit.start as usize).unwrap_or(""))?;
            blanks.push(out.len().saturating_add(1))?;
            out.push_str(BLANK)?;
            end = unit.end as usize;
        }
        out.push_str(text.get(end..).unwrap_or(""))?;
        if out.len() >= 0x8000_0000 {
            return Err(WholeError::TooLong);
        }
        let tokens = tokenize(alloc, out.as_str())?;
        Ok(Surroundings {
            text: out,
            tokens,
            blanks,
            next: 0,
        })
    }

    /// The kind of a token, and that of the end where there is none.
    fn kind(&self, place: Option<usize>) -> Kind {
        match place {
            Some(place) => match self.tokens.get(place) {
                Some(token) => token.kind,
                None => Kind::End,
            },
            None => Kind::End,
        }
    }

    /// The token that stands for a unit. Units are asked for in order.
    fn token_of(&mut self, number: usize) -> Option<usize> {
        let start = *self.blanks.get(number)?;
        for place in self.next..self.tokens.len() {
            let token = self.tokens.get(place)?;
            if token.start as usize >= start {
                self.next = place;
                return Some(place);
            }
        }
        None
    }

    /// Whether what stands at a token is called, with nothing round it but parentheses.
    fn is_called(&self, place: usize) -> bool {
        let mut behind = place.saturating_add(1);
        if self.kind(place.checked_sub(1)) == Kind::LeftParen {
            for _ in 0..self.tokens.len() {
                if self.kind(Some(behind)) != Kind::RightParen {
                    break;
                }
                behind = behind.saturating_add(1);
            }
        }
        self.kind(Some(behind)) == Kind::LeftParen
    }

    /// The label right in front of a token, by its place and its text.
    fn label_before(&self, place: usize) -> Option<(usize, &str)> {
        let colon = place.checked_sub(1)?;
        let label = place.checked_sub(2)?;
        if self.kind(Some(colon)) != Kind::Colon || self.kind(label.checked_sub(1)) == Kind::Case {
            return None;
        }
        let token = self.tokens.get(label)?;
        let text = self
            .text
            .as_str()
            .get(token.start as usize..token.end as usize)?;
        Some((label, text))
    }

    /// How far in front of a unit's place a token begins, by the token that stands for the unit.
    fn distance(&self, from: usize, unit: usize) -> u32 {
        match (self.tokens.get(from), self.tokens.get(unit)) {
            (Some(from), Some(unit)) => {
                // the unit's token has a space in front of it
                unit.start.saturating_sub(from.start.saturating_add(1))
            }
            _ => 0,
        }
    }

    /// What stands round a unit, which is the next one or one behind it.
    pub(crate) fn around(
        &mut self,
        alloc: Global,
        outline: &Outline<'_>,
        number: usize,
        unit: Unit,
    ) -> Result<Around, AllocError> {
        let jumps = outline.jumps(unit);
        let Some(place) = self.token_of(number) else {
            return Ok(Around {
                start: unit.start,
                jumps: distinct(alloc, outline, jumps, &HashMap::new(alloc))?,
                is_behind_new: false,
                is_called: false,
                is_before_dot: false,
            });
        };
        let mut labels = labels_of(alloc, outline, jumps)?;
        let front = self.front(place, &mut labels);
        Ok(Around {
            start: unit.start.saturating_sub(self.distance(front, place)),
            jumps: distinct(alloc, outline, jumps, &labels)?,
            is_behind_new: self.kind(place.checked_sub(1)) == Kind::New,
            is_called: self.is_called(place),
            is_before_dot: self.kind(place.checked_add(1)) == Kind::Dot,
        })
    }

    /// The first of the labels in front of a token that are among these, or the token. They are marked.
    fn front(&self, place: usize, labels: &mut HashMap<&str, bool>) -> usize {
        let mut front = place;
        for _ in 0..labels.len() {
            let Some((label, text)) = self.label_before(front) else {
                break;
            };
            let Some(is_own) = labels.get_mut(text) else {
                break;
            };
            *is_own = true;
            front = label;
        }
        front
    }
}

/// The labels that jumps go to. None is marked.
fn labels_of<'b>(
    alloc: Global,
    outline: &'b Outline<'_>,
    jumps: &[Jump],
) -> Result<HashMap<&'b str, bool>, AllocError> {
    let mut labels = HashMap::new(alloc);
    for jump in jumps {
        if let Some(label) = jump.label {
            labels.insert(outline.text(label), false)?;
        }
    }
    Ok(labels)
}

/// The jumps whose labels are not marked.
fn distinct(
    alloc: Global,
    outline: &Outline<'_>,
    jumps: &[Jump],
    labels: &HashMap<&str, bool>,
) -> Result<Vec<Jump>, AllocError> {
    let mut kept = Vec::new(alloc);
    for jump in jumps {
        if let Some(label) = jump.label
            && let Some(true) = labels.get(outline.text(label))
        {
            continue;
        }
        kept.push(*jump)?;
    }
    Ok(kept)
}
