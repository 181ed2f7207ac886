//! Cipher feedback with segments of 128 bits (SP 800-38A, 6.3).

ghost use Rattle.std.specs.Prelude.{◌≡◌, ◌≤◌, length};
ghost use Rattle.tpm_aes.specs.Cfb.{cfb_decrypt_of, cfb_encrypt_of};
ghost use Rattle.tpm_aes.specs.Cipher.{aes_of, xor_of};

use crate::bytes::{Block, xor_with};
use crate::cipher::Aes128;

const BLOCK_SIZE: usize = 16;

impl Aes128 {
    /// Encrypts `text` in place. It may have any length. A short last block is XORed with the first
    /// bytes of its key stream.
    pub fn cfb_encrypt(&self, iv: &[u8; 16], text: &mut [u8])
        ensures value { text.new ≡ cfb_encrypt_of self.now iv.now text.old }
        ensures undone { cfb_decrypt_of self.now iv.now text.new ≡ text.old }
    {
        let mut feedback = *iv;
        for index in 0..text.len().div_ceil(BLOCK_SIZE) {
            let start = BLOCK_SIZE * index;
            let size = BLOCK_SIZE.min(text.len() - start);
            self.encrypt_block(&mut feedback, &mut text[start..start + size]);
        }
    }

    /// Decrypts `text` in place. With the same key and IV, this function and `cfb_encrypt` undo
    /// each other.
    pub fn cfb_decrypt(&self, iv: &[u8; 16], text: &mut [u8])
        ensures value { text.new ≡ cfb_decrypt_of self.now iv.now text.old }
        ensures undone { cfb_encrypt_of self.now iv.now text.new ≡ text.old }
    {
        let mut feedback = *iv;
        for index in 0..text.len().div_ceil(BLOCK_SIZE) {
            let start = BLOCK_SIZE * index;
            let size = BLOCK_SIZE.min(text.len() - start);
            self.decrypt_block(&mut feedback, &mut text[start..start + size]);
        }
    }

    /// Encrypts one block. Only the last block may be short, and only a full block is fed back.
    fn encrypt_block(&self, feedback: &mut Block, text: &mut [u8])
        requires { length text.old ≤ 16 }
        ensures value { text.new ≡ xor_of text.old (aes_of self.now feedback.old) }
        ensures fed_back { length text.old ≡ 16 → feedback.new ≡ text.new }
    {
        let key_stream = self.block(feedback);
        if let Some(block) = text.as_mut_array::<BLOCK_SIZE>() {
            xor_with(block, &key_stream);
            *feedback = *block;
        } else {
            xor_with(text, &key_stream);
        }
    }

    /// Decrypts one block. Only the last block may be short, and only a full block is fed back.
    fn decrypt_block(&self, feedback: &mut Block, text: &mut [u8])
        requires { length text.old ≤ 16 }
        ensures value { text.new ≡ xor_of text.old (aes_of self.now feedback.old) }
        ensures fed_back { length text.old ≡ 16 → feedback.new ≡ text.old }
    {
        let key_stream = self.block(feedback);
        if let Some(cipher_block) = text.as_mut_array::<BLOCK_SIZE>() {
            *feedback = *cipher_block;
            xor_with(cipher_block, &key_stream);
        } else {
            xor_with(text, &key_stream);
        }
    }
}
