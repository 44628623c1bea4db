//! Values that are coded into one or two words.
ghost use Rattle.std.specs.Prelude.{◌≡◌, ℕ, ℤ, pos, ◌^◌, ◌<◌, ◌≤◌, ◌↔◌, List, [], ◌∷◌, ◌++◌, length, take, drop, IsTrue, refl};
ghost use Rattle.std.specs.Char.{IsScalar};
ghost use Rattle.std.proofs.Common.{lit≤, ◌∙◌, sym};
ghost use Rattle.sto_part.specs.Codes.{first_of, natural_of, truth_of, truth_word, IsSignedCode, IsNaturalCode, one_word, one_natural, one_truth, truth_decodes, pair_length, pair_decodes, pair_encodes};

/// A value that is coded into words, each an i64.
///
/// The slices of its calls have exactly `WORDS` places. Decoding what was encoded gives the value
/// back, and encoding what was decoded from a code gives the code back.
pub trait Words: Sized {
    /// Into how many words a value is coded, 1 or 2.
    const WORDS: u32;

    ghost WORDS: { ℕ };

    /// The words of a value.
    ghost words_of: { Self → List ℤ };

    /// The value of the words.
    ghost value_of: { List ℤ → Self };

    /// The words are those of a value.
    ghost IsCode: { List ℤ → Type 0 };

    /// Writes the value's words.
    fn encode(&self, out: &mut [i64])
        requires { length out.old ≡ WORDS }
        ensures words { out.new ≡ words_of self.now }
        ensures code { IsCode out.new };

    /// Whether the words are those of a value.
    fn is_code(words: &[i64]) -> bool
        requires { length words.now ≡ WORDS }
        ensures { IsTrue result ↔ IsCode words.now };

    /// The value whose words these are.
    fn decode(words: &[i64]) -> Self
        requires length { length words.now ≡ WORDS }
        requires code { IsCode words.now }
        ensures { result ≡ value_of words.now };

    ghost one_or_two: { (1 ≤ WORDS) × (WORDS ≤ 2) };

    ghost length_of: { (value : Self) → length (words_of value) ≡ WORDS };

    ghost decodes: { (value : Self) → value_of (words_of value) ≡ value };

    ghost encodes: { (words : List ℤ) → length words ≡ WORDS → IsCode words → words_of (value_of words) ≡ words };
}

/// What is coded into one word.
pub trait Word: Words {
    ghost one_word: { Self.WORDS ≡ 1 };
}

impl Words for i64 {
    const WORDS: u32 = 1;

    ghost WORDS = { 1 };

    ghost words_of = { λ x. x ∷ [] };

    ghost value_of = { first_of };

    ghost IsCode = { IsSignedCode };

    ghost one_or_two = { (lit≤ tt, lit≤ tt) };

    ghost length_of = { λ _. refl };

    ghost decodes = { λ _. refl };

    ghost encodes = { λ words e _. one_word words e };

    fn encode(&self, out: &mut [i64]) {
        out.copy_from_slice(&[*self]);
    }

    fn is_code(words: &[i64]) -> bool {
        true
    }

    fn decode(words: &[i64]) -> i64 {
        words[0]
    }
}

impl Word for i64 {
    ghost one_word = { refl };
}

impl Words for bool {
    const WORDS: u32 = 1;

    ghost WORDS = { 1 };

    ghost words_of = { λ x. truth_word x ∷ [] };

    ghost value_of = { truth_of };

    ghost IsCode = { IsNaturalCode (λ n. n < 2) };

    ghost one_or_two = { (lit≤ tt, lit≤ tt) };

    ghost length_of = { λ _. refl };

    ghost decodes = { truth_decodes };

    ghost encodes = { one_truth };

    fn encode(&self, out: &mut [i64]) {
        out.copy_from_slice(&[i64::from(*self)]);
    }

    fn is_code(words: &[i64]) -> bool {
        words[0] == 0 || words[0] == 1
    }

    fn decode(words: &[i64]) -> bool {
        words[0] == 1
    }
}

impl Word for bool {
    ghost one_word = { refl };
}

impl Words for u32 {
    const WORDS: u32 = 1;

    ghost WORDS = { 1 };

    ghost words_of = { λ x. pos x ∷ [] };

    ghost value_of = { natural_of };

    ghost IsCode = { IsNaturalCode (λ n. n < 2 ^ 32) };

    ghost one_or_two = { (lit≤ tt, lit≤ tt) };

    ghost length_of = { λ _. refl };

    ghost decodes = { λ _. refl };

    ghost encodes = { one_natural (λ n. n < 2 ^ 32) };

    fn encode(&self, out: &mut [i64]) {
        out.copy_from_slice(&[i64::from(*self)]);
    }

    fn is_code(words: &[i64]) -> bool {
        u32::try_from(words[0]).is_ok()
    }

    fn decode(words: &[i64]) -> u32 {
        words[0] as u32
    }
}

impl Word for u32 {
    ghost one_word = { refl };
}

impl Words for char {
    const WORDS: u32 = 1;

    ghost WORDS = { 1 };

    ghost words_of = { λ x. pos x ∷ [] };

    ghost value_of = { natural_of };

    ghost IsCode = { IsNaturalCode IsScalar };

    ghost one_or_two = { (lit≤ tt, lit≤ tt) };

    ghost length_of = { λ _. refl };

    ghost decodes = { λ _. refl };

    ghost encodes = { one_natural IsScalar };

    fn encode(&self, out: &mut [i64]) {
        out.copy_from_slice(&[i64::from(u32::from(*self))]);
    }

    fn is_code(words: &[i64]) -> bool {
        match u32::try_from(words[0]) {
            Ok(code) => char::from_u32(code).is_some(),
            Err(_) => false,
        }
    }

    fn decode(words: &[i64]) -> char {
        match char::from_u32(words[0] as u32) {
            Some(letter) => letter,
            None => unreachable!(),
        }
    }
}

impl Word for char {
    ghost one_word = { refl };
}

impl<A: Word, B: Word> Words for (A, B) {
    const WORDS: u32 = 2;

    ghost WORDS = { 2 };

    ghost words_of = { λ p. A.words_of p.0 ++ B.words_of p.1 };

    ghost value_of = { λ words. (A.value_of (take 1 words), B.value_of (drop 1 words)) };

    ghost IsCode = { λ words. A.IsCode (take 1 words) × B.IsCode (drop 1 words) };

    ghost one_or_two = { (lit≤ tt, lit≤ tt) };

    ghost length_of = { pair_length A.words_of A.value_of B.words_of B.value_of (λ a. A.length_of a ∙ A.one_word)
        (λ b. B.length_of b ∙ B.one_word) };

    ghost decodes = { pair_decodes A.words_of A.value_of B.words_of B.value_of (λ a. A.length_of a ∙ A.one_word) A.decodes B.decodes };

    ghost encodes = { pair_encodes A.words_of A.value_of B.words_of B.value_of A.IsCode B.IsCode (λ ws e. A.encodes ws (e ∙ sym A.one_word))
        (λ ws e. B.encodes ws (e ∙ sym B.one_word)) };

    fn encode(&self, out: &mut [i64]) {
        let (front, back) = out.split_at_mut(1);
        self.0.encode(front);
        self.1.encode(back);
    }

    fn is_code(words: &[i64]) -> bool {
        A::is_code(&words[..1]) && B::is_code(&words[1..])
    }

    fn decode(words: &[i64]) -> (A, B) {
        (A::decode(&words[..1]), B::decode(&words[1..]))
    }
}
