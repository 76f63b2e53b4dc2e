// A reader of a face.
ghost use Rattle.std.specs.Prelude.{◌≡◌, true, map, IfOk, IfErr, IfSome, OnErr};
ghost use Rattle.mc_key.specs.Prefix.{is_under};
ghost use Rattle.mc_model.specs.Answers as answers;
ghost use Rattle.mc_model.specs.Answers.{has_value};
ghost use Rattle.mc_model.specs.Live.{value};
ghost use Rattle.mc_query.specs.Answers.{AreAnswers};
ghost use Rattle.mc_query.specs.Places.{pair_of, start_of};
ghost use Rattle.mc_face.specs.Lists.{Starts, longer};
ghost use Rattle.mc_face.specs.Words.{told_list, told_face, IsGlance};

use crate::exactness::Exactness;
use crate::front::Front;
use crate::glance::{Glance, GlanceError, Told};
use crate::places::{Place, enter, longer};
use mc_base::{Bytes, List};
use mc_model::valued_keys_are_exact;
use mc_query::Pair;
use std::alloc::{AllocError, Global};
use std::marker::Model;

/// A reader of a face, for one thread. A contract sees it as the list that it has seen, the longest that it was told
/// of, and its face. None of its calls waits.
#[derive(Drop)]
pub struct FaceReader<X: Exactness> {
    // None while it reads.
    pub(crate) place: Option<Place<X>>,
    pub(crate) seen: Front,
    pub(crate) told: Front,
}

impl<X: Exactness> Model for FaceReader<X> {
    ghost use Rattle.std.specs.Prelude.{◌≡◌, IfSome};
    ghost use Rattle.left_right.specs.Sides as sides;
    ghost use Rattle.mc_face.specs.Known.{Knows};
    ghost use Rattle.mc_face.specs.Faces.{blocks_of};
    ghost use Rattle.mc_face.specs.Words.{ReaderValue};

    ghost Value = { ReaderValue };

    ghost view = { λ r. record { seen = blocks_of r.seen; told = blocks_of r.told; face = r.seen.seen.book } };

    ghost invariant = { λ r. (r.told.seen.book ≡ r.seen.seen.book)
        × IfSome r.place (λ p. Knows (sides.view p.place) r.seen) };
}

impl<X: Exactness> FaceReader<X> {
    /// Tells the reader of a list that was shown. It keeps the longest that it was told of, which begins with each of
    /// them. It takes no memory.
    ///
    /// Condition: both are of one face.
    pub fn tell(&mut self, told: &Told)
        requires one { told_face told.now ≡ self.old.face }
        ensures told { self.new.told ≡ longer self.old.told (told_list told.now) }
        ensures begins { Starts self.new.told self.old.told × Starts self.new.told (told_list told.now) }
        ensures seen { self.new.seen ≡ self.old.seen }
        ensures face { self.new.face ≡ self.old.face }
    {
        self.told = longer(&self.told, &told.front);
    }

    /// The value of a key over a list of `length` blocks, or none where it has none. The list begins with all that the
    /// reader had seen and with each list that it was told of, and the reader has seen it afterwards. The key is any
    /// text. A refusal leaves the reader as it was.
    ///
    /// Refusals: `Shut`, where the face gives no entry; `Memory`.
    pub fn get(&mut self, alloc: Global, key: &str) -> Result<Glance<Option<Bytes>>, GlanceError>
        ensures glance { IfOk result (λ glance. IsGlance X.exact (λ blocks found. found ≡ value blocks key.now) glance
            self.old.seen self.old.told self.new.seen) }
        ensures refused { OnErr result (self.new.seen ≡ self.old.seen) }
        ensures told { self.new.told ≡ self.old.told }
        ensures face { self.new.face ≡ self.old.face }
    {
        let Some(entry) = enter(&mut self.place, &self.seen, &self.told) else {
            return Err(GlanceError::Shut);
        };
        let answer = entry.get().value(alloc, key);
        let front = entry.get().front.again();
        self.place = Some(entry.leave());
        match answer {
            Ok(answer) => {
                let length = front.count;
                self.seen = front;
                Ok(Glance { answer, length })
            }
            Err(AllocError) => Err(GlanceError::Memory),
        }
    }

    /// Whether a key has a value over such a list. The rest is as of `get`, but it takes no memory.
    ///
    /// Refusals: `Shut`, where the face gives no entry.
    pub fn has(&mut self, key: &str) -> Result<Glance<bool>, GlanceError>
        ensures glance { IfOk result (λ glance. IsGlance X.exact (λ blocks found. found ≡ has_value blocks key.now)
            glance self.old.seen self.old.told self.new.seen) }
        ensures shut { IfErr result (λ error. error ≡ GlanceError.Shut) }
        ensures refused { OnErr result (self.new.seen ≡ self.old.seen) }
        ensures told { self.new.told ≡ self.old.told }
        ensures face { self.new.face ≡ self.old.face }
    {
        let Some(entry) = enter(&mut self.place, &self.seen, &self.told) else {
            return Err(GlanceError::Shut);
        };
        let answer = entry.get().has(key);
        let front = entry.get().front.again();
        self.place = Some(entry.leave());
        let length = front.count;
        self.seen = front;
        Ok(Glance { answer, length })
    }

    /// The keys with a value that a prefix selects, ascending by their bytes, each with its value: those after the
    /// first `skip` of them, and at most `count`, over such a list. The slashes at the prefix's end don't count; a
    /// prefix of slashes alone, or of nothing, selects every key, and any other those that begin with it and a slash.
    /// It walks along the selected keys alone. Over every face, also one that isn't exact, the keys ascend, are
    /// selected and are at most so many. The rest is as of `get`.
    ///
    /// Refusals: `Shut`, where the face gives no entry; `Memory`.
    pub fn query(
        &mut self,
        alloc: Global,
        prefix: &str,
        skip: u64,
        count: u64,
    ) -> Result<Glance<List<Pair>>, GlanceError>
        ensures glance { IfOk result (λ glance. IsGlance X.exact (λ blocks pairs.
            map pair_of pairs ≡ answers.query blocks (is_under prefix.now) skip count)
            glance self.old.seen self.old.told self.new.seen) }
        ensures ascend { IfOk result (λ glance.
            AreAnswers (start_of prefix.now) true prefix.now count glance.answer) }
        ensures refused { OnErr result (self.new.seen ≡ self.old.seen) }
        ensures told { self.new.told ≡ self.old.told }
        ensures face { self.new.face ≡ self.old.face }
    {
        valued_keys_are_exact();
        let Some(entry) = enter(&mut self.place, &self.seen, &self.told) else {
            return Err(GlanceError::Shut);
        };
        let answer = entry.get().rows(alloc, prefix, skip, count);
        let front = entry.get().front.again();
        self.place = Some(entry.leave());
        match answer {
            Ok(answer) => {
                let length = front.count;
                self.seen = front;
                Ok(Glance { answer, length })
            }
            Err(AllocError) => Err(GlanceError::Memory),
        }
    }

    /// The value of a key over the very list of `told`, which the reader is told of; none where the face gives no
    /// entry, or shows a longer list by now. The refusal is for want of memory, and leaves what the reader has seen.
    ///
    /// Condition: both are of one face.
    pub fn get_at(
        &mut self,
        alloc: Global,
        told: &Told,
        key: &str,
    ) -> Result<Option<Option<Bytes>>, AllocError>
        requires one { told_face told.now ≡ self.old.face }
        ensures answer { X.exact ≡ true → IfOk result (λ answer. IfSome answer (λ found.
            found ≡ value (told_list told.now) key.now)) }
        ensures begins { Starts self.new.seen self.old.seen }
        ensures refused { OnErr result (self.new.seen ≡ self.old.seen) }
        ensures told { self.new.told ≡ longer self.old.told (told_list told.now) }
        ensures face { self.new.face ≡ self.old.face }
    {
        self.tell(told);
        match self.get(alloc, key) {
            Ok(Glance { answer, length }) => {
                if length == told.length {
                    Ok(Some(answer))
                } else {
                    Ok(None)
                }
            }
            Err(GlanceError::Shut) => Ok(None),
            Err(GlanceError::Memory) => Err(AllocError),
        }
    }
}
