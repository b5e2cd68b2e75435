// Readers of the next piece, by kind.
ghost use Rattle.std.specs.Prelude.{◌≡◌};
ghost use Rattle.pcm_line.specs.Pieces.{place_at};
ghost use Rattle.pcm_line.specs.Kinds.{OfNumber, OfClient, OfSub, OfMode, OfDir, OfModel, OfAccess, OfFormat, OfHex, OfName};
ghost use Rattle.pcm_line.specs.Reading.{Gives, next_piece, read_value, read_end};

use crate::error::LineError;
use crate::pieces::{Pieces, ends_piece, piece_len};
use crate::{hex, kinds};
use pcm_base::{Access, Bytes, ClientId, Dir, Format, Mode, Model, Name, SubId};
use std::alloc::Global;

impl<'a> Pieces<'a> {
    /// The next piece.
    pub fn next(&mut self) -> Result<&'a [u8], LineError>
        ensures { Gives (λ piece. (piece.now, place_at self.new.at self.new.rest.now)) result (next_piece (place_at self.old.at self.old.rest.now)) }
    {
        let [_, text @ ..] = self.rest else {
            return Err(LineError::Short);
        };
        let (piece, rest) = text.split_at(piece_len(text));
        self.at += piece.len() + 1;
        self.rest = rest;
        Ok(piece)
    }

    /// The next piece as a number. One digit is read at once.
    #[inline(always)]
    pub fn number(&mut self) -> Result<u64, LineError>
        ensures { Gives (λ v. (v, place_at self.new.at self.new.rest.now)) result (read_value OfNumber (place_at self.old.at self.old.rest.now)) }
    {
        match self.rest {
            [_, digit, rest @ ..] if digit.is_ascii_digit() && ends_piece(rest) => {
                self.at += 2;
                self.rest = rest;
                Ok(u64::from(*digit - b'0'))
            }
            _ => self.any_number(),
        }
    }

    #[inline(never)]
    fn any_number(&mut self) -> Result<u64, LineError>
        ensures { Gives (λ v. (v, place_at self.new.at self.new.rest.now)) result (read_value OfNumber (place_at self.old.at self.old.rest.now)) }
    {
        let at = self.at;
        let piece = self.next()?;
        kinds::number(piece).ok_or(LineError::Number(at))
    }

    /// The next piece as a client. One digit is read at once.
    #[inline(always)]
    pub fn client(&mut self) -> Result<ClientId, LineError>
        ensures { Gives (λ v. (v, place_at self.new.at self.new.rest.now)) result (read_value OfClient (place_at self.old.at self.old.rest.now)) }
    {
        match self.rest {
            [_, b'c', digit, rest @ ..] if digit.is_ascii_digit() && ends_piece(rest) => {
                self.at += 3;
                self.rest = rest;
                Ok(ClientId(*digit - b'0'))
            }
            _ => self.any_client(),
        }
    }

    #[inline(never)]
    fn any_client(&mut self) -> Result<ClientId, LineError>
        ensures { Gives (λ v. (v, place_at self.new.at self.new.rest.now)) result (read_value OfClient (place_at self.old.at self.old.rest.now)) }
    {
        let at = self.at;
        let piece = self.next()?;
        match kinds::after_letter(b'c', piece) {
            Some(i) => Ok(ClientId(i)),
            None => Err(LineError::Word(at)),
        }
    }

    /// The next piece as a substream. One digit is read at once.
    #[inline(always)]
    pub fn sub(&mut self) -> Result<SubId, LineError>
        ensures { Gives (λ v. (v, place_at self.new.at self.new.rest.now)) result (read_value OfSub (place_at self.old.at self.old.rest.now)) }
    {
        match self.rest {
            [_, b's', digit, rest @ ..] if digit.is_ascii_digit() && ends_piece(rest) => {
                self.at += 3;
                self.rest = rest;
                Ok(SubId(*digit - b'0'))
            }
            _ => self.any_sub(),
        }
    }

    #[inline(never)]
    fn any_sub(&mut self) -> Result<SubId, LineError>
        ensures { Gives (λ v. (v, place_at self.new.at self.new.rest.now)) result (read_value OfSub (place_at self.old.at self.old.rest.now)) }
    {
        let at = self.at;
        let piece = self.next()?;
        match kinds::after_letter(b's', piece) {
            Some(i) => Ok(SubId(i)),
            None => Err(LineError::Word(at)),
        }
    }

    /// The next piece as a mode of a transfer.
    pub fn mode(&mut self) -> Result<Mode, LineError>
        ensures { Gives (λ v. (v, place_at self.new.at self.new.rest.now)) result (read_value OfMode (place_at self.old.at self.old.rest.now)) }
    {
        let at = self.at;
        kinds::mode(self.next()?).ok_or(LineError::Word(at))
    }

    /// The next piece as a direction.
    pub fn dir(&mut self) -> Result<Dir, LineError>
        ensures { Gives (λ v. (v, place_at self.new.at self.new.rest.now)) result (read_value OfDir (place_at self.old.at self.old.rest.now)) }
    {
        let at = self.at;
        kinds::dir(self.next()?).ok_or(LineError::Word(at))
    }

    /// The next piece as the model of a card.
    pub fn model(&mut self) -> Result<Model, LineError>
        ensures { Gives (λ v. (v, place_at self.new.at self.new.rest.now)) result (read_value OfModel (place_at self.old.at self.old.rest.now)) }
    {
        let at = self.at;
        kinds::model(self.next()?).ok_or(LineError::Word(at))
    }

    /// The next piece as an access.
    pub fn access(&mut self) -> Result<Access, LineError>
        ensures { Gives (λ v. (v, place_at self.new.at self.new.rest.now)) result (read_value OfAccess (place_at self.old.at self.old.rest.now)) }
    {
        let at = self.at;
        kinds::access(self.next()?).ok_or(LineError::Word(at))
    }

    /// The next piece as a format.
    pub fn format(&mut self) -> Result<Format, LineError>
        ensures { Gives (λ v. (v, place_at self.new.at self.new.rest.now)) result (read_value OfFormat (place_at self.old.at self.old.rest.now)) }
    {
        let at = self.at;
        kinds::format(self.next()?).ok_or(LineError::Word(at))
    }

    /// The next piece as the name of a file.
    pub fn name(&mut self) -> Result<Name, LineError>
        ensures { Gives (λ v. (v, place_at self.new.at self.new.rest.now)) result (read_value OfName (place_at self.old.at self.old.rest.now)) }
    {
        let at = self.at;
        let piece = self.next()?;
        Name::of(piece).ok_or(LineError::Word(at))
    }

    /// The next piece as bytes in hex.
    pub fn hex(&mut self, alloc: Global) -> Result<Bytes, LineError>
        ensures { Gives (λ v. (v, place_at self.new.at self.new.rest.now)) result (read_value OfHex (place_at self.old.at self.old.rest.now)) }
    {
        let [_, text @ ..] = self.rest else {
            return Err(LineError::Short);
        };
        let Some((bytes, rest)) = hex::read_front(alloc, text)? else {
            return Err(LineError::Word(self.at));
        };
        self.at += text.len() - rest.len() + 1;
        self.rest = rest;
        Ok(Bytes::of(bytes))
    }

    /// Nothing is left.
    pub fn end(&self) -> Result<(), LineError>
        ensures { Gives (λ v. v) result (read_end (place_at self.now.at self.now.rest.now)) }
    {
        match self.rest {
            [] => Ok(()),
            [_, ..] => Err(LineError::Long(self.at)),
        }
    }
}
